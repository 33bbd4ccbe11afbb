//! How a run goes on from turn to turn, and how it ends.
ghost use Rattle.std.specs.Prelude.{◌≡◌, ◌⊎◌, ◌≤◌, ◌<◌, ◌^◌, [], true, false, length, IfOk, IfErr, OnErr};
ghost use Rattle.std.specs.Io.KnownBytes.{Consumes, IsAtEnd, Keeps};
ghost use Rattle.shell_io.specs.declared.run.RunFault.TheVariants.{Memory, Write};
ghost use Rattle.shell_io.specs.Outcomes as forms;
ghost use Rattle.shell_io.specs.OutputViews.{answer_as};
ghost use Rattle.shell_io.specs.Writing.{SameWriters, Sends, WritesOutcome};

use crate::output::{Answer, Output};
use crate::written::{Refused, write_answer, write_parts};
use std::alloc::AllocError;
use std::io::{Read, Write};
use thiserror::Error;

/// How a run ended.
#[derive(Clone, Copy, Debug, PartialEq, Eq)]
pub struct Status {
    /// How many fault lines were written. It stays at 2^64 - 1 once there.
    pub faults: u64,
    /// Whether a command, or a fault line where bail is on, ended the session.
    pub quit: bool,
}

/// The two writers that a run borrows, with its status so far.
#[derive(Drop)]
pub struct Outputs<'w, O, E> {
    pub status: Status,
    pub out: &'w mut O,
    pub err: &'w mut E,
}

impl<'w, O, E> Outputs<'w, O, E> {
    /// Outputs before a run.
    pub fn new(out: &'w mut O, err: &'w mut E) -> Outputs<'w, O, E>
        ensures status { result.status ≡ record { faults = 0; quit = false } }
        ensures out { result.out ≡ out.entry }
        ensures err { result.err ≡ err.entry }
    {
        Outputs {
            status: Status {
                faults: 0,
                quit: false,
            },
            out,
            err,
        }
    }
}

/// Why a run ended before the end of its input.
#[derive(Clone, Copy, Debug, PartialEq, Eq, Error)]
pub enum RunFault {
    #[error("input fault")]
    Read,
    #[error("output fault")]
    Write,
    #[error("input too large")]
    TooMuch,
    #[error("out of memory")]
    Memory,
}

impl From<AllocError> for RunFault {
    ghost from_gives = { λ _ fault. fault ≡ Memory };

    fn from(_error: AllocError) -> RunFault {
        RunFault::Memory
    }
}

impl From<Refused> for RunFault {
    ghost from_gives = { λ _ fault. fault ≡ Write };

    fn from(_refused: Refused) -> RunFault {
        RunFault::Write
    }
}

/// Whether a run is over after a piece of so many bytes.
pub fn is_over(read: usize, status: Status) -> bool
    ensures over { result ≡ true → (read ≡ 0) ⊎ ((0 < read) × (status.quit ≡ true)) }
    ensures goes { result ≡ false → (0 < read) × (status.quit ≡ false) }
    ensures fits { status.faults < 2 ^ 64 }
{
    read == 0 || status.quit
}

/// Flushes the output.
pub fn flush<O: Write>(out: &mut O) -> Result<(), RunFault>
    ensures bytes { Keeps (O.contents out.old) (O.contents out.new) }
    ensures fault { IfErr result (λ fault. fault ≡ RunFault.Write) }
{
    out.flush().map_err(|_| RunFault::Write)
}

/// Writes what a turn answers to what begins on this line, and counts its fault line. Where bail is
/// on, a fault ends the session.
pub fn tell<O: Write, E: Write>(
    answer: &Answer,
    line: u64,
    bail: bool,
    outputs: &mut Outputs<'_, O, E>,
) -> Result<(), RunFault>
    ensures writes { WritesOutcome O.contents E.contents result outputs.old outputs.new
        (forms.outcome_of bail line (answer_as answer.now)) }
    ensures writers { SameWriters outputs.old outputs.new }
{
    write_answer(answer, line, outputs.out, outputs.err)?;
    let Status { faults, quit } = outputs.status;
    outputs.status = match answer {
        Ok(Output::Nothing | Output::Bytes(_) | Output::Warnings(_)) => Status { faults, quit },
        Ok(Output::Quit) => Status { faults, quit: true },
        Err(_) => Status {
            faults: faults.saturating_add(1),
            quit: quit || bail,
        },
    };
    Ok(())
}

/// Writes the text of a unit where echo is on, and flushes the output, so that who watches sees
/// what is running.
pub fn echo_text<O: Write>(echo: bool, text: &str, out: &mut O) -> Result<(), RunFault>
    ensures out { Sends result (O.contents out.old) (O.contents out.new)
        (forms.echo_text echo text.now) }
    ensures fault { IfErr result (λ fault. fault ≡ RunFault.Write) }
{
    if echo {
        write_parts(out, &[text, "\n"])?;
        flush(out)?;
    }
    Ok(())
}

/// Reads a piece of the input, and gives the bytes of it.
pub fn read_chunk<'c, R: Read>(reader: &mut R, chunk: &'c mut [u8]) -> Result<&'c [u8], RunFault>
    ensures bound { IfOk result (λ bytes. length bytes.now ≤ length chunk.old) }
    ensures bytes { IfOk result (λ bytes. Consumes (R.remaining reader.old) (R.remaining reader.new)
        bytes.now) }
    ensures end { IfOk result (λ bytes. bytes.now ≡ [] → 0 < length chunk.old
        → IsAtEnd (R.remaining reader.new)) }
    ensures kept { OnErr result (Keeps (R.remaining reader.old) (R.remaining reader.new)) }
    ensures fault { IfErr result (λ fault. fault ≡ RunFault.Read) }
{
    match reader.read(chunk) {
        Ok(n) => Ok(&chunk[..n]),
        Err(_) => Err(RunFault::Read),
    }
}
