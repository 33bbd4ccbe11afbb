//! The program: its words, its databases, its inputs and its status.

ghost use Rattle.std.specs.Prelude.{◌≡◌, ◌&&◌, false, is_ok, map, Some, string_bytes};
ghost use Rattle.sqlite.specs.Files.{over_files};
ghost use Rattle.shell_io.specs.Writing.{AppendsUpTo, SameWriters, Sends};
ghost use Rattle.ft_files.specs.declared.databases.OpenFault.TheVariants as opening;
ghost use Rattle.ft_files.specs.Hosts.{empty_image};
ghost use Rattle.ft_program.specs.Closed.{IsStoreLeft, RunsBoth, RunsOn, TellsClose};
ghost use Rattle.ft_program.specs.InFiles.{RunsInFiles};
ghost use Rattle.ft_program.specs.Inputs.{outputs_of, stage_of, due, Spares, RunsInTurn, RunsAndKeeps, Closes, opening_line};
ghost use Rattle.ft_program.specs.Inputs as forms;
ghost use Rattle.ft_program.specs.Memory as memory;
ghost use Rattle.ft_program.specs.Memory.{RefusesLine, RefusesWords, RunsInMemory, SparesInput, Starts};

use clap::error::ErrorKind;
use ft_calls::TextTables;
use ft_files::{
    Databases, Left, OpenFault, SystemDatabases, SystemFiles, close_one, left_files, names_of,
    open_both_in, open_in_memory,
};
use ft_index::FullText;
use ft_line::{Line, LineFault, read_line};
use ft_shell::{Outputs, RunFault, Session, Status};
use ft_store::Store;
use itoa::Buffer;
use shell_text::{PrintFault, Settings, write_out};
use sqlite::{Alter, Connection, File, FileStore};
use sqlite_disk::Disk;
use std::io::{Read, Write};

// The program's statuses.
const FINE: u8 = 0;

const FAULTY: u8 = 1;

const NOT_UNDERSTOOD: u8 = 2;

// What a line has run: inputs, one after the other, and the settings at their begin.
#[derive(Drop)]
struct Work<'a> {
    settings: Settings,
    inputs: &'a [String],
}

/// Runs the program on words without its own name over the files of the system, and gives its
/// status: 0; 1 where a fault line was written, a database wasn't opened or closed, or the run
/// ended early; 2 where the words aren't understood. The input is read only where the words give
/// no texts.
pub fn start<R: Read, O: Write, E: Write>(
    rt: &HostRuntime,
    words: &[&str],
    input: &mut R,
    out: &mut O,
    err: &mut E,
) -> u8
    ensures runs { Starts ⟦<File as Disk>⟧ false (λ _. empty_image) (λ _. empty_image)
        (map (λ word. word.now) words.now) (R.remaining input.old)
        (record { out = O.contents out.old; err = E.contents err.old })
        (record { out = O.contents out.new; err = E.contents err.new }) result }
    ensures spares { SparesInput (map (λ word. word.now) words.now) input.old input.new }
{
    start_in(rt, words, &mut SystemDatabases { rt }, input, out, err)
}

/// The same over the databases of any host.
pub fn start_in<D: Disk + Drop, H: Databases<D>, R: Read, O: Write, E: Write>(
    rt: &HostRuntime,
    words: &[&str],
    host: &mut H,
    input: &mut R,
    out: &mut O,
    err: &mut E,
) -> u8
    ensures runs { Starts D.Disk H.tells (H.holds host.old) (H.holds host.new)
        (map (λ word. word.now) words.now) (R.remaining input.old)
        (record { out = O.contents out.old; err = E.contents err.old })
        (record { out = O.contents out.new; err = E.contents err.new }) result }
    ensures spares { SparesInput (map (λ word. word.now) words.now) input.old input.new }
{
    let outputs = &mut Outputs::new(out, err);
    let Line {
        settings,
        file,
        inputs,
    } = match read_line(rt.alloc(), words) {
        Ok(line) => line,
        Err(fault) => return refuse_line(&fault, outputs),
    };
    let inputs = inputs.as_slice();
    let work = Work { settings, inputs };
    match file {
        None => in_memory(rt, work, input, outputs),
        Some(path) => in_host(rt, host, path.as_str(), work, input, outputs),
    }
}

// Runs the inputs over two empty databases in memory.
fn in_memory<R: Read, O: Write, E: Write>(
    rt: &HostRuntime,
    work: Work<'_>,
    input: &mut R,
    outputs: &mut Outputs<'_, O, E>,
) -> u8
    ensures runs { RunsInMemory work.entry.settings
        (due (map string_bytes work.entry.inputs.now) (R.remaining input.old))
        (outputs_of O.contents E.contents outputs.old)
        (outputs_of O.contents E.contents outputs.new) result }
    ensures writers { SameWriters outputs.old outputs.new }
    ensures spares { Spares (map string_bytes work.entry.inputs.now) input.old input.new }
{
    match open_in_memory(rt) {
        Ok((plain, store)) => {
            let ended = on_databases(rt, plain, store, work, input, outputs);
            let_go(ended.1);
            let_go(ended.2);
            ended.0
        }
        Err(fault) => tell(outputs.err, fault),
    }
}

// Runs the inputs over the two databases of a host, and gives their files back.
fn in_host<D: Disk + Drop, H: Databases<D>, R: Read, O: Write, E: Write>(
    rt: &HostRuntime,
    host: &mut H,
    path: &str,
    work: Work<'_>,
    input: &mut R,
    outputs: &mut Outputs<'_, O, E>,
) -> u8
    ensures runs { RunsInFiles D.Disk H.tells path.now (H.holds host.old) (H.holds host.new)
        work.entry.settings (due (map string_bytes work.entry.inputs.now) (R.remaining input.old))
        (outputs_of O.contents E.contents outputs.old)
        (outputs_of O.contents E.contents outputs.new) result }
    ensures writers { SameWriters outputs.old outputs.new }
    ensures spares { Spares (map string_bytes work.entry.inputs.now) input.old input.new }
{
    let names = match names_of(rt.alloc(), path) {
        Ok(names) => names,
        Err(fault) => return tell(outputs.err, fault),
    };
    let tables = names.tables.as_str();
    let texts = names.texts.as_str();
    match open_both_in(rt, host, tables, texts) {
        Ok((plain, store)) => {
            let ended = on_databases(rt, plain, store, work, input, outputs);
            let status = tell_close(both_closed(&ended.1, &ended.2), ended.0, outputs.err);
            let tables_left = left_files(ended.1);
            let texts_left = left_files(ended.2);
            host.close(tables, tables_left);
            host.close(texts, texts_left);
            status
        }
        Err(fault) => tell(outputs.err, fault),
    }
}

// Whether what `clap` answers is a text that was asked for: the help, or the version.
fn is_asked_for(kind: ErrorKind) -> bool
    ensures { result ≡ memory.is_asked_for kind }
{
    matches!(kind, ErrorKind::DisplayHelp | ErrorKind::DisplayVersion)
}

// Writes the text of `clap`: one that was asked for to the output, and any other to the errors.
fn refuse_words<O: Write, E: Write>(text: &clap::Error, outputs: &mut Outputs<'_, O, E>) -> u8
    ensures runs { RefusesWords text.now
        (outputs_of O.contents E.contents outputs.old)
        (outputs_of O.contents E.contents outputs.new) result }
    ensures writers { SameWriters outputs.old outputs.new }
{
    if is_asked_for(text.kind()) {
        let _ = write!(outputs.out, "{text}");
        let _ = outputs.out.flush();
        FINE
    } else {
        let _ = write!(outputs.err, "{text}");
        NOT_UNDERSTOOD
    }
}

// Tells why the words say nothing.
fn refuse_line<O: Write, E: Write>(fault: &LineFault, outputs: &mut Outputs<'_, O, E>) -> u8
    ensures runs { RefusesLine fault.now
        (outputs_of O.contents E.contents outputs.old)
        (outputs_of O.contents E.contents outputs.new) result }
    ensures writers { SameWriters outputs.old outputs.new }
{
    match fault {
        LineFault::Words(text) => refuse_words(text, outputs),
        fault => {
            let _ = writeln!(outputs.err, "{fault}");
            NOT_UNDERSTOOD
        }
    }
}

// Runs the inputs over both databases, and closes them: what was committed goes from the log into
// each file. Where a close is refused the log keeps it, and the next open finds it.
fn on_databases<D: Disk + Drop, F: Disk + Drop, R: Read, O: Write, E: Write>(
    rt: &HostRuntime,
    plain: Connection<FileStore<D>>,
    store: Store<FileStore<F>>,
    work: Work<'_>,
    input: &mut R,
    outputs: &mut Outputs<'_, O, E>,
) -> (u8, Left<D>, Left<F>)
    ensures runs { RunsOn work.entry.settings plain store
        (due (map string_bytes work.entry.inputs.now) (R.remaining input.old)) result.1 result.2
        (outputs_of O.contents E.contents outputs.old)
        (outputs_of O.contents E.contents outputs.new) result.0 }
    ensures writers { SameWriters outputs.old outputs.new }
    ensures spares { Spares (map string_bytes work.entry.inputs.now) input.old input.new }
{
    let (status, plain, store) = run_beside(rt, plain, store, work, input, outputs);
    (status, close_one(plain), close_store(store))
}

// Runs the inputs over a plain database in files and a store. Of the two one is named at a time: to
// name both in one call takes more steps than the checker has.
fn run_beside<D: Disk + Drop, S: Alter, R: Read, O: Write, E: Write>(
    rt: &HostRuntime,
    plain: Connection<FileStore<D>>,
    store: Store<S>,
    work: Work<'_>,
    input: &mut R,
    outputs: &mut Outputs<'_, O, E>,
) -> (u8, Connection<FileStore<D>>, Store<S>)
    ensures runs { RunsBoth over_files S.Store work.entry.settings plain store
        (due (map string_bytes work.entry.inputs.now) (R.remaining input.old)) result.1 result.2
        (outputs_of O.contents E.contents outputs.old)
        (outputs_of O.contents E.contents outputs.new) result.0 }
    ensures writers { SameWriters outputs.old outputs.new }
    ensures spares { Spares (map string_bytes work.entry.inputs.now) input.old input.new }
{
    run_over(rt, plain, store, work, input, outputs)
}

// Runs the inputs over both databases, if the store can be read, and hands them back as they stand
// then.
fn run_over<P: Alter, S: Alter, R: Read, O: Write, E: Write>(
    rt: &HostRuntime,
    plain: Connection<P>,
    store: Store<S>,
    work: Work<'_>,
    input: &mut R,
    outputs: &mut Outputs<'_, O, E>,
) -> (u8, Connection<P>, Store<S>)
    ensures runs { RunsBoth P.Store S.Store work.entry.settings plain store
        (due (map string_bytes work.entry.inputs.now) (R.remaining input.old)) result.1 result.2
        (outputs_of O.contents E.contents outputs.old)
        (outputs_of O.contents E.contents outputs.new) result.0 }
    ensures writers { SameWriters outputs.old outputs.new }
    ensures spares { Spares (map string_bytes work.entry.inputs.now) input.old input.new }
{
    let full_text = match FullText::new(rt.alloc(), store) {
        Ok(full_text) => full_text,
        Err(fault) => return (tell(outputs.err, OpenFault::Store), plain, fault.store),
    };
    full_text.is_settled();
    let mut session = Session::new(rt.alloc(), plain, full_text, work.settings);
    let mut files = SystemFiles { rt };
    let ended = run_all(&mut session, work.inputs, input, &mut files, outputs);
    let status = status_of(ended, outputs.err);
    let (plain, full_text) = session.into_parts();
    (status, plain, full_text.into_store())
}

// Whether neither close was refused.
fn both_closed<D: Disk + Drop, F: Disk + Drop>(tables: &Left<D>, texts: &Left<F>) -> bool
    ensures { result ≡ (is_ok tables.now && is_ok texts.now) }
{
    tables.is_ok() && texts.is_ok()
}

// Writes whether a close was refused, and gives the program's status.
fn tell_close<E: Write>(is_closed: bool, status: u8, err: &mut E) -> u8
    ensures { TellsClose is_closed (E.contents err.old) (E.contents err.new) status result }
{
    if is_closed {
        status
    } else {
        write_line(err, "Error: unable to close database\n");
        FAULTY
    }
}

// What a close left is let go.
fn let_go<D: Disk + Drop>(left: Left<D>) {
    drop(left_files(left));
}

// Closes the full-text store.
fn close_store<D: Disk + Drop>(store: Store<FileStore<D>>) -> Left<D>
    ensures { IsStoreLeft store result }
{
    close_one(store.into_connection())
}

// The program's own line for a fault that ended a run.
fn own_line(fault: RunFault) -> &'static str
    ensures { result.now ≡ forms.own_line fault }
{
    match fault {
        RunFault::Read => "Error: input fault\n",
        RunFault::Write => "Error: output fault\n",
        RunFault::TooMuch => "Error: input too large\n",
        RunFault::Memory => "Error: out of memory\n",
    }
}

// Writes a text whole, or as far as the writer takes it.
fn send<W: Write>(to: &mut W, text: &str) -> Result<(), PrintFault>
    ensures { Sends result (W.contents to.old) (W.contents to.new) text.now }
{
    write_out(to, text.as_bytes())
}

// Writes the line for a store of a version that isn't taken.
fn send_version<W: Write>(to: &mut W, number: i64) -> Result<(), PrintFault>
    ensures { Sends result (W.contents to.old) (W.contents to.new)
        (opening_line (opening.Version number)) }
{
    let mut buffer = Buffer::new();
    send(to, "Error: full-text store of version ")?;
    send(to, buffer.format(number))?;
    send(to, "\n")
}

// Writes a line as far as the writer takes it.
fn write_line<W: Write>(to: &mut W, line: &str)
    ensures { AppendsUpTo (W.contents to.old) (W.contents to.new) line.now }
{
    let _ = send(to, line);
}

// The program's status for how its run ended.
fn status_of<E: Write>(ended: Result<Status, RunFault>, err: &mut E) -> u8
    ensures { Closes ended (E.contents err.old) (E.contents err.new) result }
{
    match ended {
        Ok(status) if status.faults == 0 => FINE,
        Ok(_) => FAULTY,
        Err(fault) => {
            write_line(err, own_line(fault));
            FAULTY
        }
    }
}

// Runs the texts that were given, or else the input.
fn run_all<P: Alter, S: Alter, T: TextTables<Over = S>, R: Read, O: Write, E: Write>(
    session: &mut Session<P, T>,
    inputs: &[String],
    input: &mut R,
    files: &mut SystemFiles<'_>,
    outputs: &mut Outputs<'_, O, E>,
) -> Result<Status, RunFault>
    ensures runs { RunsAndKeeps P.Store S.Store
        (due (map string_bytes inputs.now) (R.remaining input.old)) result
        (stage_of O.contents E.contents session.old outputs.old)
        (stage_of O.contents E.contents session.new outputs.new) }
    ensures writers { SameWriters outputs.old outputs.new }
    ensures spares { Spares (map string_bytes inputs.now) input.old input.new }
{
    Session::<P, T>::kept_by_runs();
    if inputs.is_empty() {
        session.run(input, outputs.out, outputs.err, files)
    } else {
        run_texts(session, inputs, files, outputs)
    }
}

// Runs texts in turn, each as an input of its own, until one ends the session.
fn run_texts<P: Alter, S: Alter, T: TextTables<Over = S>, O: Write, E: Write>(
    session: &mut Session<P, T>,
    inputs: &[String],
    files: &mut SystemFiles<'_>,
    outputs: &mut Outputs<'_, O, E>,
) -> Result<Status, RunFault>
    ensures runs { RunsInTurn P.Store S.Store (map Some (map string_bytes inputs.now)) result
        (stage_of O.contents E.contents session.old outputs.old)
        (stage_of O.contents E.contents session.new outputs.new) }
    ensures writers { SameWriters outputs.old outputs.new }
{
    let mut faults: u64 = 0;
    for text in inputs {
        let mut bytes = text.as_bytes();
        let status = session.run(&mut bytes, outputs.out, outputs.err, files)?;
        faults = faults.saturating_add(status.faults);
        if status.quit {
            return Ok(Status { faults, quit: true });
        }
    }
    Ok(Status {
        faults,
        quit: false,
    })
}

// Writes why a database is not opened.
fn tell<E: Write>(err: &mut E, fault: OpenFault) -> u8
    ensures line { AppendsUpTo (E.contents err.old) (E.contents err.new) (opening_line fault) }
    ensures status { result ≡ 1 }
{
    match fault {
        OpenFault::Database => write_line(err, "Error: unable to open database\n"),
        OpenFault::NotAStore => write_line(err, "Error: not a full-text store\n"),
        OpenFault::Store => write_line(err, "Error: unable to open full-text store\n"),
        OpenFault::Version(number) => {
            let _ = send_version(err, number);
        }
    }
    FAULTY
}
