//! A session: the units of an input in turn, and what is written for them.
ghost use Rattle.std.specs.Prelude.{◌≡◌, ◌<◌, ◌∷◌, ◌++◌, ℕ, List, [], ⊤, length, OnOk};
ghost use Rattle.shell_text.specs.Units.{Fault, Member};
ghost use Rattle.shell_text.specs.Splitting.{member_of_unit};
ghost use Rattle.shell_io.specs.LinesRead.{HasNoEnd, Way, at_end, behind, members_left, refused_as};
ghost use Rattle.ft_shell.specs.Ran.{moment, Ends, GoesOn, IsWithinLine, NoneWaits, Runs, TakesRead};
ghost use Rattle.ft_shell.specs.Runs.{console_of};
ghost use Rattle.ft_shell.specs.Promise.{IsAny, IsClean, KeptByRuns, RanAndKept};
ghost use Rattle.ft_calls.specs.Kept.{SurvivesCrash};
ghost use Rattle.ft_shell.specs.Shell.{shell_with};
ghost use Rattle.shell_io.specs.Sources.{Files};
ghost use Rattle.shell_io.specs.Writing.{SameWriters};

use crate::turns::unit_turn;
use ft_calls::{TextTables, kept_by_calls, kept_with_causes};
use ram_disk::Honest;
use shell_io::{
    Complaint, LineReader, Outputs, Refusal, RunFault, Source, Status, echo_text, end_refusal,
    first_line, flush, is_over, read_chunk, split_text, tell,
};
use shell_text::{Settings, SplitFault, Unit, blocks_read_whole};
use sqlite::{Alter, Connection};
use std::alloc::Global;
use std::io::{Read, Write};
use std::marker::Model;

// The most bytes of an input.
const MOST_INPUT: usize = 1 << 30;

// How many bytes are asked of the reader at once.
const CHUNK: usize = 1 << 16;

/// A plain database and full-text tables, with the settings of a shell.
#[derive(Drop)]
pub struct Session<P: Alter, T: TextTables> {
    alloc: Global,
    settings: Settings,
    plain: Connection<P>,
    full_text: T,
}

impl<P: Alter, T: TextTables> Model for Session<P, T> {
    ghost use Rattle.ft_shell.specs.Shell.{Parts, parts_code};

    ghost Value = { Parts P T.Over };

    ghost coded = { parts_code P.code T.Over.code };

    ghost view = { λ s. record {
      settings = s.settings;
      plain = s.plain;
      full_text = T.known s.full_text;
    } };
}

impl<P: Alter, S: Alter, T: TextTables<Over = S>> Session<P, T> {
    /// A session over plain tables and full-text tables, which begins with these settings.
    pub fn new(
        alloc: Global,
        plain: Connection<P>,
        full_text: T,
        settings: Settings,
    ) -> Session<P, T>
        ensures { result ≡ record {
          settings = settings;
          plain = plain;
          full_text = T.known full_text;
        } }
    {
        Session {
            alloc,
            settings,
            plain,
            full_text,
        }
    }

    /// Both parts as they stand.
    pub fn into_parts(self) -> (Connection<P>, T)
        ensures plain { result.0 ≡ self.plain }
        ensures full_text { T.known result.1 ≡ self.full_text }
    {
        let Session {
            plain,
            full_text,
            ..
        } = self;
        (plain, full_text)
    }

    /// Runs the units of an input in turn, up to one that ends the session. Whatever a unit is
    /// refused for, the run goes on. However the run ends, the full-text tables are what the
    /// accepted commands make of them. The output is flushed before each read of the input, so that
    /// whoever waits for an answer has it, before each fault line, and at the end. The status
    /// counts the fault lines of this run alone.
    ///
    /// # Errors
    ///
    /// `Read` or `Write` where the reader or a writer fails, `TooMuch` past 2^30 bytes of input,
    /// and `Memory` where there is none to read a line. What was done before stands. A unit whose
    /// echo is refused is not run.
    pub fn run<R: Read, O: Write, E: Write, F: Source>(
        &mut self,
        reader: &mut R,
        out: &mut O,
        err: &mut E,
        source: &mut F,
    ) -> Result<Status, RunFault>
        ensures ran { RanAndKept P.Store S.Store result
            (console_of (shell_with self.old (F.holds source.old)) (R.remaining reader.old)
            (O.contents out.old) (E.contents err.old))
            (console_of (shell_with self.new (F.holds source.new)) (R.remaining reader.new)
            (O.contents out.new) (E.contents err.new)) }
        ensures source { (name : List ℕ) → F.holds source.new name ≡ F.holds source.old name }
    {
        Session::<P, T>::kept_by_runs();
        self.is_settled();
        self.run_pieces(reader, source, &mut Outputs::new(out, err))
    }

    /// After any runs, however each ended, each full-text table's content is that of the accepted
    /// commands, and the index rows of each sound table are exactly those made from scratch. Each
    /// command, a Select with MATCH too, was answered by the definitions, and a refused one changed
    /// neither content nor index.
    pub fn kept_by_runs()
        ensures { KeptByRuns P.Store S.Store (IsClean S.Store) }
    {
        kept_by_calls::<S>();
        kept_with_causes::<S>();
    }

    // The law that a crash leaves what an open store holds, and nothing else.
    fn is_settled(&self)
        ensures { SurvivesCrash S.Store self.now.full_text }
    {
        self.full_text.is_settled();
    }

    // Such a run, piece by piece, on both writers together.
    fn run_pieces<R: Read, O: Write, E: Write, F: Source>(
        &mut self,
        reader: &mut R,
        source: &mut F,
        outputs: &mut Outputs<'_, O, E>,
    ) -> Result<Status, RunFault>
        ensures runs { Ends P.Store S.Store result
            (console_of (shell_with self.old (F.holds source.old)) (R.remaining reader.old)
            (O.contents outputs.old.out.now) (E.contents outputs.old.err.now))
            (console_of (shell_with self.new (F.holds source.new)) (R.remaining reader.new)
            (O.contents outputs.new.out.now) (E.contents outputs.new.err.now)) }
        ensures writers { SameWriters outputs.old outputs.new }
    {
        blocks_read_whole();
        let mut lines = LineReader::new(self.alloc)?;
        let mut chunk = vec![in self.alloc; 0; CHUNK]?;
        outputs.status = Status {
            faults: 0,
            quit: false,
        };
        let mut total: usize = 0;
        while total <= MOST_INPUT {
            flush(outputs.out)?;
            let bytes = read_chunk(reader, chunk.as_mut_slice())?;
            let read = bytes.len();
            self.take_read(&mut lines, bytes, MOST_INPUT - total, source, outputs)?;
            if is_over(read, outputs.status) {
                flush(outputs.out)?;
                return Ok(outputs.status);
            }
            total += read;
        }
        Err(RunFault::TooMuch)
    }

    // Takes of the bytes that were read as many as there is room for. There are none only at the
    // end of the input, and then what is left of it is run.
    fn take_read<O: Write, E: Write, F: Source>(
        &mut self,
        lines: &mut LineReader,
        read: &[u8],
        room: usize,
        source: &mut F,
        outputs: &mut Outputs<'_, O, E>,
    ) -> Result<(), RunFault>
        requires goes { GoesOn outputs.old.status lines.old }
        ensures takes { TakesRead P.Store S.Store result room read.now lines.old lines.new
            (moment O.contents E.contents (shell_with self.old (F.holds source.old)) outputs.old)
            (moment O.contents E.contents (shell_with self.new (F.holds source.new)) outputs.new) }
        ensures waiting { OnOk result (0 < length read.now
            → NoneWaits outputs.new.status lines.new) }
        ensures line { OnOk result (0 < length read.now
            → IsWithinLine outputs.new.status lines.new) }
        ensures writers { SameWriters outputs.old outputs.new }
    {
        if read.is_empty() {
            return self.finish(lines, source, outputs);
        }
        let bytes = &read[..read.len().min(room)];
        self.take(lines, bytes, source, outputs)
    }

    // Takes a piece of the input, up to a unit that ends the session.
    fn take<O: Write, E: Write, F: Source>(
        &mut self,
        lines: &mut LineReader,
        bytes: &[u8],
        source: &mut F,
        outputs: &mut Outputs<'_, O, E>,
    ) -> Result<(), RunFault>
        requires waiting { NoneWaits outputs.old.status lines.old }
        ensures runs { Runs P.Store S.Store result
            (λ (way : Way). members_left lines.old (behind bytes.now way)) (members_left lines.new)
            (moment O.contents E.contents (shell_with self.old (F.holds source.old)) outputs.old)
            (moment O.contents E.contents (shell_with self.new (F.holds source.new)) outputs.new) }
        ensures waiting { OnOk result (NoneWaits outputs.new.status lines.new) }
        ensures line { OnOk result (IsWithinLine outputs.new.status lines.new) }
        ensures writers { SameWriters outputs.old outputs.new }
    {
        let mut rest = bytes;
        while !outputs.status.quit {
            let Some((line, after)) = first_line(rest) else {
                lines.keep(rest)?;
                return Ok(());
            };
            self.end_line(lines, line, source, outputs)?;
            rest = after;
        }
        Ok(())
    }

    // A line ends after these bytes: it is refused, or the units that end in it are run.
    fn end_line<O: Write, E: Write, F: Source>(
        &mut self,
        lines: &mut LineReader,
        bytes: &[u8],
        source: &mut F,
        outputs: &mut Outputs<'_, O, E>,
    ) -> Result<(), RunFault>
        requires goes { GoesOn outputs.old.status lines.old }
        requires whole { HasNoEnd bytes.now }
        ensures runs { Runs P.Store S.Store result
            (λ (way : Way). members_left lines.old (behind bytes.now (behind (10 ∷ []) way)))
            (members_left lines.new)
            (moment O.contents E.contents (shell_with self.old (F.holds source.old)) outputs.old)
            (moment O.contents E.contents (shell_with self.new (F.holds source.new)) outputs.new) }
        ensures waiting { OnOk result (NoneWaits outputs.new.status lines.new) }
        ensures line { OnOk result (lines.new.line ≡ []) }
        ensures writers { SameWriters outputs.old outputs.new }
    {
        let refused = lines.end_line(bytes)?;
        self.refuse(&refused, outputs)?;
        if outputs.status.quit {
            return Ok(());
        }
        self.run_units(lines, source, outputs)
    }

    // Runs the units that wait, up to one that ends the session.
    fn run_units<O: Write, E: Write, F: Source>(
        &mut self,
        lines: &mut LineReader,
        source: &mut F,
        outputs: &mut Outputs<'_, O, E>,
    ) -> Result<(), RunFault>
        ensures runs { Runs P.Store S.Store result (members_left lines.old)
            (members_left lines.new)
            (moment O.contents E.contents (shell_with self.old (F.holds source.old)) outputs.old)
            (moment O.contents E.contents (shell_with self.new (F.holds source.new)) outputs.new) }
        ensures waiting { OnOk result (NoneWaits outputs.new.status lines.new) }
        ensures line { lines.new.line ≡ lines.old.line }
        ensures writers { SameWriters outputs.old outputs.new }
    {
        while !outputs.status.quit {
            let Some(unit) = lines.next() else {
                break;
            };
            self.run_unit(&unit, source, outputs)?;
        }
        Ok(())
    }

    fn run_unit<O: Write, E: Write, F: Source>(
        &mut self,
        unit: &Unit,
        source: &mut F,
        outputs: &mut Outputs<'_, O, E>,
    ) -> Result<(), RunFault>
        ensures runs { Runs P.Store S.Store result
            (λ (rest : List Member). member_of_unit unit.now ∷ rest) (λ (rest : List Member). rest)
            (moment O.contents E.contents (shell_with self.old (F.holds source.old)) outputs.old)
            (moment O.contents E.contents (shell_with self.new (F.holds source.new)) outputs.new) }
        ensures writers { SameWriters outputs.old outputs.new }
    {
        echo_text(self.settings.echo(), unit.text.as_str(), outputs.out)?;
        let bail = self.settings.bail();
        let answer = unit_turn(
            self.alloc,
            &mut self.settings,
            &mut self.plain,
            &mut self.full_text,
            source,
            unit,
        );
        tell(&answer, unit.line, bail, outputs)
    }

    // The fault line of a line that is refused, or of the end of the input.
    fn refuse<O: Write, E: Write>(
        &mut self,
        refused: &Option<Refusal>,
        outputs: &mut Outputs<'_, O, E>,
    ) -> Result<(), RunFault>
        ensures runs { (holds : Files)
            → Runs P.Store S.Store result (λ (rest : List Member). refused_as refused.now ++ rest)
            (λ (rest : List Member). rest)
            (moment O.contents E.contents (shell_with self.old holds) outputs.old)
            (moment O.contents E.contents (shell_with self.new holds) outputs.new) }
        ensures writers { SameWriters outputs.old outputs.new }
    {
        let Some(refusal) = refused else {
            return Ok(());
        };
        let answer = Err(Complaint::fixed(split_text(&refusal.fault)));
        tell(&answer, refusal.line, self.settings.bail(), outputs)
    }

    // What follows the last line feed is a line if it isn't empty.
    fn finish_line<O: Write, E: Write, F: Source>(
        &mut self,
        lines: &mut LineReader,
        source: &mut F,
        outputs: &mut Outputs<'_, O, E>,
    ) -> Result<(), RunFault>
        requires goes { GoesOn outputs.old.status lines.old }
        ensures runs { Runs P.Store S.Store result (λ (_ : ⊤). members_left lines.old at_end)
            (λ (_ : ⊤). members_left lines.new at_end)
            (moment O.contents E.contents (shell_with self.old (F.holds source.old)) outputs.old)
            (moment O.contents E.contents (shell_with self.new (F.holds source.new)) outputs.new) }
        ensures waiting { OnOk result (NoneWaits outputs.new.status lines.new) }
        ensures line { OnOk result (lines.new.line ≡ []) }
        ensures writers { SameWriters outputs.old outputs.new }
    {
        if lines.is_between_lines() {
            return Ok(());
        }
        self.end_line(lines, &[], source, outputs)
    }

    // The input ends: what is pending is a unit, or it is refused.
    fn finish<O: Write, E: Write, F: Source>(
        &mut self,
        lines: &mut LineReader,
        source: &mut F,
        outputs: &mut Outputs<'_, O, E>,
    ) -> Result<(), RunFault>
        requires goes { GoesOn outputs.old.status lines.old }
        ensures runs { Runs P.Store S.Store result (λ (_ : ⊤). members_left lines.old at_end)
            (λ (_ : ⊤). [])
            (moment O.contents E.contents (shell_with self.old (F.holds source.old)) outputs.old)
            (moment O.contents E.contents (shell_with self.new (F.holds source.new)) outputs.new) }
        ensures writers { SameWriters outputs.old outputs.new }
    {
        self.finish_line(lines, source, outputs)?;
        if outputs.status.quit {
            return Ok(());
        }
        self.finish_last(lines, source, outputs)
    }

    // What is pending after the last line is a unit, or it is refused.
    fn finish_last<O: Write, E: Write, F: Source>(
        &mut self,
        lines: &mut LineReader,
        source: &mut F,
        outputs: &mut Outputs<'_, O, E>,
    ) -> Result<(), RunFault>
        requires waiting { lines.old.splitting.waiting ≡ [] }
        requires between { lines.old.line ≡ [] }
        ensures runs { Runs P.Store S.Store result (λ (_ : ⊤). members_left lines.old at_end)
            (λ (_ : ⊤). [])
            (moment O.contents E.contents (shell_with self.old (F.holds source.old)) outputs.old)
            (moment O.contents E.contents (shell_with self.new (F.holds source.new)) outputs.new) }
        ensures writers { SameWriters outputs.old outputs.new }
    {
        match lines.finish() {
            Ok(Some(unit)) => self.run_unit(&unit, source, outputs),
            Ok(None) => Ok(()),
            Err(SplitFault::Memory) => Err(RunFault::Memory),
            Err(fault) => self.refuse(&Some(end_refusal(fault)), outputs),
        }
    }
}

impl<P: Alter, S: Honest, T: TextTables<Over = S>> Session<P, T> {
    /// The same in memory, where the disk always returns what was written: nothing is supposed.
    pub fn kept_in_memory()
        ensures { KeptByRuns P.Store S.Store IsAny }
    {
        Session::<P, T>::kept_by_runs();
    }
}
