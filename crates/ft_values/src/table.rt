//! What is known of tables without their rows.

/// A column of a table.
#[derive(Debug, Drop)]
pub struct Column {
    pub name: String,
    /// Whether its cells are searched.
    pub indexed: bool,
}

/// A full-text table.
#[derive(Debug, Drop)]
pub struct TableInfo {
    pub id: i64,
    pub name: String,
    pub columns: Vec<Column>,
    /// Whether its rows are those of documents, with exactly the index rows made from scratch out
    /// of them.
    pub sound: bool,
}
