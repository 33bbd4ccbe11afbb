//! What the store is asked and answers.

/// What a cell holds.
#[derive(Clone, Debug, Drop, PartialEq, Eq)]
pub enum Value {
    Null,
    Int(i64),
    Text(String),
}

/// A full-text table. Its columns stand by their numbers, which begin at 0; `skipped` has the
/// numbers of those that aren't indexed.
#[derive(Debug, Drop)]
pub struct TabRow {
    pub id: i64,
    pub name: String,
    pub columns: Vec<(i64, String)>,
    pub skipped: Vec<i64>,
}

/// A cell of a table that is known.
#[derive(Debug, Drop)]
pub struct CellRow {
    pub docid: i64,
    pub column: i64,
    pub value: Value,
}

/// Where a term stands in a document: its column and its position among the tokens there, from 0,
/// its place and its size in bytes. Spots of one document stand in this order.
#[derive(Clone, Copy, Debug, PartialEq, Eq, PartialOrd, Ord)]
pub struct Spot {
    pub column: u32,
    pub pos: u32,
    pub place: u32,
    pub size: u32,
}

/// A term at a place of a document, in a table that is known.
#[derive(Debug, Drop)]
pub struct EntryRow {
    pub term: String,
    pub docid: i64,
    pub spot: Spot,
}

/// The places of one term in one document, of a term and a table that aren't named.
#[derive(Debug, Drop)]
pub struct ListRow {
    pub docid: i64,
    pub spots: Vec<Spot>,
}

/// How many tokens a cell of a known table has.
#[derive(Clone, Copy, Debug, PartialEq, Eq)]
pub struct SizeRow {
    pub docid: i64,
    pub column: i64,
    pub n: i64,
}

/// A change of the rows of a store. The first number is the table's.
#[derive(Drop)]
pub enum RowChange {
    /// The table with its name, its columns in order, and the numbers of those that aren't indexed.
    /// No other row of the table stays.
    AddTable(i64, String, Vec<String>, Vec<i64>),
    /// The table and all its rows.
    DropTable(i64),
    /// Docid, column and value; it replaces what the cell held.
    PutCell(i64, i64, i64, Value),
    /// All cells of a docid.
    DropCells(i64, i64),
    /// Term, docid and places, which replace the term's places in that document.
    PutEntries(i64, String, i64, Vec<Spot>),
    /// Term and docid.
    DropEntries(i64, String, i64),
    /// Docid, column and number.
    PutSize(i64, i64, i64, i64),
    /// Docid and column.
    DropSize(i64, i64, i64),
    /// All index rows of a table.
    ClearIndex(i64),
    /// A name, which replaces one that differs by ASCII case alone.
    Note(String),
}
