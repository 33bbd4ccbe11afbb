//! Commands on full-text tables and their replies, and imports.
use ft_values::Value;

/// Which documents are meant.
#[derive(Drop)]
pub enum Filter {
    /// All of them.
    All,
    /// The one with this docid, if there is one.
    Docid(i64),
    /// Those that a query accepts. The name is the table's, for all columns, or a column's.
    Match { name: String, query: String },
}

/// An item of a Select.
#[derive(Drop)]
pub enum Item {
    /// All columns.
    All,
    /// A column, or the docid by one of its names.
    Name(String),
    /// The offsets of the filter's query. The name is the table's.
    Offsets(String),
}

/// What a Select answers.
#[derive(Drop)]
pub enum Items {
    /// How many documents are chosen.
    Count,
    /// A row of these items for each document that is chosen.
    List(Vec<Item>),
}

/// What a Create asks for: a table of these columns, or of one named `content` where there is none.
/// An option is a name and a value. With `if_new` a table of that name may be there, and then
/// nothing is made.
#[derive(Drop)]
pub struct Creation {
    pub table: String,
    pub module: String,
    pub options: Vec<(String, String)>,
    pub columns: Vec<String>,
    pub if_new: bool,
}

/// The rows that an Insert adds. A row has a value for each of `columns`, or for each column of the
/// table.
#[derive(Drop)]
pub struct Insertion {
    pub table: String,
    pub columns: Option<Vec<String>>,
    pub rows: Vec<Vec<Value>>,
}

/// The values that an Update sets, each under the name of its column, and the documents that it
/// chooses.
#[derive(Drop)]
pub struct Modification {
    pub table: String,
    pub sets: Vec<(String, Value)>,
    pub filter: Filter,
}

/// The documents that a Delete chooses.
#[derive(Drop)]
pub struct Deletion {
    pub table: String,
    pub filter: Filter,
}

/// What a Select asks for: items of the documents that are chosen, by rising docid, without the
/// first `offset` and at most `limit`.
#[derive(Drop)]
pub struct Selection {
    pub table: String,
    pub items: Items,
    pub filter: Filter,
    pub limit: Option<u64>,
    pub offset: u64,
}

/// A command on full-text tables. Names are compared without ASCII case.
#[derive(Drop)]
pub enum Command {
    /// Makes a table.
    Create(Creation),
    /// Removes a table. With `if_there` it may be missing.
    Drop { table: String, if_there: bool },
    /// Adds a document for each row.
    Insert(Insertion),
    /// Sets values of the documents that are chosen.
    Update(Modification),
    /// Removes the documents that are chosen.
    Delete(Deletion),
    /// Answers items of documents.
    Select(Selection),
    /// Makes the index again out of the documents.
    Rebuild { table: String },
    /// Compares the index with the documents.
    Check { table: String },
    /// Changes nothing.
    Optimize { table: String },
}

/// Names, and rows with a value under each.
#[derive(Debug, Drop)]
pub struct Grid {
    pub names: Vec<String>,
    pub rows: Vec<Vec<Value>>,
}

/// What a command is answered.
#[derive(Debug, Drop)]
pub enum Reply {
    Done,
    Rows(Grid),
}

/// The arguments of `.import`.
#[derive(Drop)]
pub struct Import {
    /// Whether a comma parts fields, whatever the separator is.
    pub csv: bool,
    /// How many records are skipped.
    pub skip: Option<u64>,
    pub file: String,
    pub table: String,
}
