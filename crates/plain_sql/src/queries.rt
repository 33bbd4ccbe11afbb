//! What a query does in a session, and what is said of a refusal.
ghost use Rattle.std.specs.Prelude.{◌≡◌, IfOk, IfErr, string_bytes};
ghost use Rattle.shell_io.specs.OutputViews.{answer_as, complaint_as};
ghost use Rattle.plain_sql.specs.PlainStatements as turns;
ghost use Rattle.plain_sql.specs.PlainStatements.{EndsSo, TellsRefusal, Answers, FailsToAnswer, QueryTurn};

use crate::answers::row_print;
use shell_io::{Answer, Complaint, FaultText};
use shell_text::Settings;
use sqlite::{Alter, Connection, Error, ErrorCode, Row, Statement};
use std::alloc::{AllocError, Global};

/// Whether an error is want of memory.
pub(crate) fn is_memory_error(error: Error) -> bool
    ensures { result ≡ turns.is_memory_error error }
{
    matches!(error, Error::SqliteFailure(ErrorCode::OutOfMemory))
}

// What is said behind the words of `sqlite` where MATCH is one of those of the statement.
fn match_hint(seeks: bool) -> &'static str
    ensures { result.now ≡ turns.match_hint seeks }
{
    if seeks {
        " (MATCH is for full-text tables, and this names none)"
    } else {
        ""
    }
}

// The words of `sqlite` for what it refused, and what is said behind them.
fn refusal_words(alloc: Global, error: Error, seeks: bool) -> Result<String, AllocError>
    ensures { IfOk result (λ text. EndsSo (turns.match_hint seeks) (string_bytes text)) }
{
    let mut words = format!(in alloc; "{error}")?;
    words.push_str(match_hint(seeks))?;
    Ok(words)
}

/// What is said of what `sqlite` refused: its words, and what is said of MATCH where it stands in
/// the statement.
pub fn refusal(alloc: Global, error: Error, seeks: bool) -> Complaint
    ensures { TellsRefusal seeks error (complaint_as result) }
{
    if is_memory_error(error) {
        return Complaint::from(AllocError);
    }
    match refusal_words(alloc, error, seeks) {
        Ok(words) => Complaint::from(FaultText::Made(words)),
        Err(failed) => Complaint::from(failed),
    }
}

// A query is prepared for its names, and then executed.
fn asked<P: Alter>(plain: &mut Connection<P>, text: &str) -> Result<(Statement, Vec<Row>), Error>
    ensures answered { IfOk result (λ r. Answers P.Store text.now plain.old plain.new r.0.columns
        r.1.items) }
    ensures refused { IfErr result (FailsToAnswer P.Store text.now plain.old plain.new) }
{
    let statement = plain.prepare(text)?;
    let rows = statement.query_all(plain, &[])?;
    Ok((statement, rows))
}

/// Runs a query of plain SQL, and prints its answer. `seeks` says whether MATCH stands in it.
pub fn query_turn<P: Alter>(
    alloc: Global,
    settings: &Settings,
    plain: &mut Connection<P>,
    text: &str,
    seeks: bool,
) -> Answer
    ensures { QueryTurn P.Store settings.now text.now seeks plain.old plain.new (answer_as result) }
{
    match asked(plain, text) {
        Ok((statement, rows)) => row_print(
            alloc,
            settings,
            statement.column_names(),
            rows.as_slice(),
        ),
        Err(error) => Err(refusal(alloc, error, seeks)),
    }
}
