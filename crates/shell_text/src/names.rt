//! Names in columns.

ghost use Rattle.std.specs.Prelude.{◌≡◌, ◌+◌, ◌-◌, ◌/◌, ◌<◌, map, max, string_bytes, IfOk};
ghost use Rattle.shell_text.specs.Print.{bytes_of, names_in_columns, names_on, widest, Prints};
ghost use Rattle.shell_text.specs.Calls.{StandAcross};

use crate::print::{PrintFault, push_columns, write_out};
use std::alloc::{AllocError, Global};
use std::io::Write;
use unicode_width::UnicodeWidthStr;

// The columns of a terminal.
const LINE_WIDTH: usize = 80;

fn widest(names: &[String]) -> usize
    ensures { result ≡ widest (map string_bytes names.now) }
{
    let mut most = 0;
    for name in names {
        most = name.as_str().width().max(most);
    }
    most
}

// How many names stand on a line.
fn across(width: usize) -> usize
    ensures { StandAcross width result }
{
    if width < LINE_WIDTH {
        (LINE_WIDTH / (width + 2)).max(1)
    } else {
        1
    }
}

// The names on a line: those at a place, and at each place that lies a number of places after.
fn names_on(
    alloc: Global,
    names: &[String],
    across: usize,
    down: usize,
    first: usize,
) -> Result<Vec<String>, AllocError>
    ensures { IfOk result (λ line. bytes_of line
        ≡ names_on across down first (map string_bytes names.now)) }
{
    let mut line = Vec::new(alloc);
    let mut at = first;
    for _ in 0..across {
        if at >= names.len() {
            return Ok(line);
        }
        line.push(String::from_str(alloc, names[at].as_str())?)?;
        if down >= names.len() - at {
            return Ok(line);
        }
        at += down;
    }
    Ok(line)
}

fn listed(alloc: Global, names: &[String]) -> Result<Vec<u8>, AllocError>
    ensures { IfOk result (λ text. text.items ≡ names_in_columns (map string_bytes names.now)) }
{
    let width = widest(names);
    let across = across(width);
    let down = names.len().div_ceil(across);
    let widths = vec![in alloc; width; across]?;
    let mut text = Vec::new(alloc);
    for j in 0..down {
        let line = names_on(alloc, names, across, down, j)?;
        push_columns(&mut text, widths.as_slice(), line.as_slice())?;
    }
    Ok(text)
}

/// Writes names in columns of one width, line by line, so that they run downwards: as many columns
/// as 80 have room for, with two spaces between. The text is made whole before the first byte goes
/// out: after `Memory` nothing was written, after `Write` a front of it and not the whole.
pub fn write_names<W: Write>(alloc: Global, names: &[String], out: &mut W) -> Result<(), PrintFault>
    ensures { Prints (names_in_columns (map string_bytes names.now)) (W.contents out.old)
        (W.contents out.new) result }
{
    let text = listed(alloc, names)?;
    write_out(out, text.as_slice())
}
