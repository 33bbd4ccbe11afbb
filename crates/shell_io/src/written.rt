//! What a turn answers, written to the two outputs.
ghost use Rattle.std.specs.Prelude.{◌++◌, ◌∷◌, []};
ghost use Rattle.std.specs.List.{flat_map};
ghost use Rattle.shell_io.specs.Outcomes.{fault_lines};
ghost use Rattle.shell_io.specs.OutputViews.{answer_as, lines_as};
ghost use Rattle.shell_io.specs.Texts.{fault_line, text_as};
ghost use Rattle.shell_io.specs.Writing.{Sends};

use crate::output::{Answer, Complaint, Output};
use crate::texts::FaultText;
use itoa::Buffer;
use shell_text::write_out;
use std::io::Write;

// The writer refused.
#[derive(Clone, Copy, Debug, Drop)]
pub(crate) struct Refused;

fn write_bytes<W: Write>(to: &mut W, bytes: &[u8]) -> Result<(), Refused>
    ensures { Sends result (W.contents to.old) (W.contents to.new) bytes.now }
{
    match write_out(to, bytes) {
        Ok(()) => Ok(()),
        Err(_) => Err(Refused),
    }
}

/// Writes texts, one after the other.
pub(crate) fn write_parts<W: Write>(to: &mut W, parts: &[&str]) -> Result<(), Refused>
    ensures { Sends result (W.contents to.old) (W.contents to.new)
        (flat_map (λ part. part.now) parts.now) }
{
    for part in parts {
        write_bytes(to, part.as_bytes())?;
    }
    Ok(())
}

// A text and a line feed.
fn write_text<W: Write>(to: &mut W, text: &FaultText) -> Result<(), Refused>
    ensures { Sends result (W.contents to.old) (W.contents to.new) (text_as text.now ++ 10 ∷ []) }
{
    match text {
        FaultText::Fixed(text) => write_parts(to, &[text, "\n"]),
        FaultText::Usage(usage) => write_parts(to, &["usage: ", usage, "\n"]),
        FaultText::DocidTaken(docid) => {
            let mut buffer = Buffer::new();
            let docid = buffer.format(*docid);
            write_parts(to, &["docid already exists: ", docid, "\n"])
        }
        FaultText::Made(text) => write_parts(to, &[text.as_str(), "\n"]),
    }
}

// The fault line of what begins on the line of this number.
fn write_fault<W: Write>(to: &mut W, line: u64, text: &FaultText) -> Result<(), Refused>
    ensures { Sends result (W.contents to.old) (W.contents to.new)
        (fault_line line (text_as text.now)) }
{
    let mut buffer = Buffer::new();
    let number = buffer.format(line);
    write_parts(to, &["Error: near line ", number, ": "])?;
    write_text(to, text)
}

fn write_complaint<W: Write>(to: &mut W, line: u64, complaint: &Complaint) -> Result<(), Refused>
    ensures { Sends result (W.contents to.old) (W.contents to.new)
        (lines_as complaint.now.warnings ++ fault_line line (text_as complaint.now.text)) }
{
    match &complaint.warnings {
        Some(lines) => write_bytes(to, lines.as_bytes())?,
        None => {}
    }
    write_fault(to, line, &complaint.text)
}

/// What a turn answers to what begins on this line. The output is flushed where something went to
/// it, and before warnings and fault lines.
pub(crate) fn write_answer<O: Write, E: Write>(
    answer: &Answer,
    line: u64,
    out: &mut O,
    err: &mut E,
) -> Result<(), Refused>
    ensures out { Sends result (O.contents out.old) (O.contents out.new)
        (answer_as answer.now).out }
    ensures err { Sends result (E.contents err.old) (E.contents err.new)
        ((answer_as answer.now).warnings ++ fault_lines line (answer_as answer.now).fault) }
{
    match answer {
        Ok(Output::Bytes(bytes)) if !bytes.is_empty() => {
            write_bytes(out, bytes.as_slice())?;
            out.flush().map_err(|_| Refused)
        }
        Ok(Output::Warnings(lines)) if !lines.is_empty() => {
            out.flush().map_err(|_| Refused)?;
            write_bytes(err, lines.as_bytes())
        }
        Ok(_) => Ok(()),
        Err(complaint) => {
            out.flush().map_err(|_| Refused)?;
            write_complaint(err, line, complaint)
        }
    }
}
