//! An input that is read piece by piece.
ghost use Rattle.std.specs.Prelude.{◌≡◌, true, false, ◌∷◌, ◌++◌, ◌<◌, [], ℕ, List, length, IfOk, OnOk, IfSome, IfNone};
ghost use Rattle.shell_text.specs.Units.{start};
ghost use Rattle.shell_text.specs.Splitting.{member_of_unit};
ghost use Rattle.shell_io.specs.LinesRead.{EndsWith, HasNoEnd, Way, at_end, behind, end_line, members_left, refused_as};

use memchr::memchr;
use shell_text::{SplitFault, Splitter, Unit};
use std::alloc::{AllocError, Global};
use std::marker::Model;
use std::mem;

/// A line that is refused, or the end of the input, with the number of the line.
#[derive(Drop)]
pub struct Refusal {
    pub line: u64,
    pub fault: SplitFault,
}

// The most bytes of a line; a longer one is refused.
const MOST_BYTES: usize = 1_000_000;

/// What was read of an input. Of a line that is too long the front is kept, so that it stays too
/// long.
#[derive(Drop)]
pub struct LineReader {
    alloc: Global,
    splitter: Splitter,
    number: u64,
    line: Vec<u8>,
}

impl Model for LineReader {
    ghost use Rattle.std.specs.Prelude.{◌≡◌, ◌==◌, false};
    ghost use Rattle.std.specs.List.{list_any};
    ghost use Rattle.shell_io.specs.LinesRead.{LinesRead};

    ghost Value = { LinesRead };

    ghost view = { λ f. record { splitting = f.splitter; line = f.line.items } };

    ghost invariant = { λ f. (list_any (λ b. b == 10) f.line.items ≡ false) × (f.number ≡ f.splitter.reading.line) };
}

impl LineReader {
    pub fn new(alloc: Global) -> Result<LineReader, AllocError>
        ensures { IfOk result (λ lines. lines ≡
            record { splitting = record { reading = start; waiting = [] }; line = [] }) }
    {
        Ok(LineReader {
            alloc,
            splitter: Splitter::new(alloc)?,
            number: 1,
            line: Vec::new(alloc),
        })
    }

    /// More bytes of the line.
    pub fn keep(&mut self, bytes: &[u8]) -> Result<(), AllocError>
        requires { HasNoEnd bytes.now }
        ensures left { OnOk result ((way : Way)
            → members_left self.old (behind bytes.now way) ≡ members_left self.new way) }
        ensures waiting { OnOk result (self.new.splitting ≡ self.old.splitting) }
        ensures line { OnOk result (HasNoEnd self.new.line) }
    {
        let room = (MOST_BYTES + 1).saturating_sub(self.line.len());
        self.line
            .extend_from_slice(&bytes[..bytes.len().min(room)])?;
        Ok(())
    }

    /// The line ends after these bytes. No unit waits. Where nothing was kept of the line, it is
    /// taken as it stands in them.
    pub fn end_line(&mut self, bytes: &[u8]) -> Result<Option<Refusal>, AllocError>
        requires waiting { self.old.splitting.waiting ≡ [] }
        requires whole { HasNoEnd bytes.now }
        ensures left { IfOk result (λ refused. (way : Way)
            → members_left self.old (behind bytes.now (behind (10 ∷ []) way))
            ≡ refused_as refused ++ members_left self.new way) }
        ensures line { OnOk result (self.new.line ≡ []) }
    {
        if self.line.is_empty() {
            return self.take_line(bytes);
        }
        self.keep(bytes)?;
        let line = mem::replace(&mut self.line, Vec::new(self.alloc));
        self.take_line(line.as_slice())
    }

    // Hands a line that stands whole to the splitter. Nothing else is kept.
    fn take_line(&mut self, line: &[u8]) -> Result<Option<Refusal>, AllocError>
        requires waiting { self.old.splitting.waiting ≡ [] }
        requires alone { self.old.line ≡ [] }
        requires whole { HasNoEnd line.now }
        ensures left { IfOk result (λ refused. (way : Way)
            → members_left (record self.old { line = line.now }) (behind (10 ∷ []) way)
            ≡ refused_as refused ++ members_left self.new way) }
        ensures line { OnOk result (self.new.line ≡ []) }
    {
        let refused = match self.splitter.line(line) {
            Ok(()) => None,
            Err(SplitFault::Memory) => return Err(AllocError),
            Err(fault) => Some(Refusal {
                line: self.number,
                fault,
            }),
        };
        self.number = self.number.saturating_add(1);
        Ok(refused)
    }

    /// The next unit of the lines that ended.
    pub fn next(&mut self) -> Option<Unit>
        ensures some { IfSome result (λ unit.
            ((way : Way)
            → members_left self.old way ≡ member_of_unit unit ∷ members_left self.new way)
            × (length self.new.splitting.waiting < length self.old.splitting.waiting)
            × (self.new.line ≡ self.old.line)) }
        ensures none { IfNone result ((self.old.splitting.waiting ≡ []) × (self.new ≡ self.old)) }
    {
        self.splitter.next()
    }

    /// Whether nothing was read of a last line.
    pub fn is_between_lines(&self) -> bool
        ensures between { result ≡ true → self.now.line ≡ [] }
        ensures within { result ≡ false
            → members_left self.now at_end ≡ members_left self.now (behind (10 ∷ []) at_end) }
    {
        self.line.is_empty()
    }

    /// The input ends, after a line: what is pending is a unit, or it is refused.
    pub fn finish(&mut self) -> Result<Option<Unit>, SplitFault>
        requires waiting { self.old.splitting.waiting ≡ [] }
        requires between { self.old.line ≡ [] }
        ensures { EndsWith result (members_left self.old at_end) }
    {
        self.splitter.finish()
    }
}

/// The bytes before the first line feed and those after it, if there is one.
pub fn first_line(bytes: &[u8]) -> Option<(&[u8], &[u8])>
    ensures some { IfSome result (λ parts. HasNoEnd parts.0.now
        × (bytes.now ≡ parts.0.now ++ 10 ∷ parts.1.now)) }
    ensures none { IfNone result (HasNoEnd bytes.now) }
{
    let end = memchr(b'\n', bytes)?;
    Some((&bytes[..end], &bytes[end + 1..]))
}

/// The refusal of an input that ends where something is open.
pub fn end_refusal(fault: SplitFault) -> Refusal
    ensures { result ≡ record { line = end_line fault; fault = fault } }
{
    let line = match &fault {
        SplitFault::Incomplete(line) => *line,
        _ => 1,
    };
    Refusal { line, fault }
}
