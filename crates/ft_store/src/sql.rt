//! The texts of the statements of a store: its queries, its changes, and its tables. Rows of one
//! table, or of one term, are ordered by the rest of their key, since less of an order is settled
//! sooner at each run of a statement; the last row alone is found by the whole key.

/// All cells of a table.
pub(crate) const CELLS: &str =
    "SELECT docid, col, num, txt FROM cell WHERE tab = ?1 ORDER BY docid, col";

/// The cells of a document.
pub(crate) const DOCUMENT: &str =
    "SELECT docid, col, num, txt FROM cell WHERE tab = ?1 AND docid = ?2 ORDER BY col";

/// The docids of the cells of column 0, so many after an offset.
pub(crate) const DOCIDS: &str =
    "SELECT docid FROM cell WHERE tab = ?1 AND col = 0 ORDER BY docid, col LIMIT ?2 OFFSET ?3";

/// One cell of a document.
pub(crate) const ONE_CELL: &str =
    "SELECT docid FROM cell WHERE tab = ?1 AND docid = ?2 ORDER BY docid, col LIMIT 1";

/// The last cell of a table.
pub(crate) const LAST_DOCID: &str =
    "SELECT docid, col FROM cell WHERE tab = ?1 ORDER BY tab DESC, docid DESC, col DESC LIMIT 1";

/// The sizes of a table's cells.
pub(crate) const SIZES: &str = "SELECT docid, col, n FROM sizes WHERE tab = ?1 ORDER BY docid, col";

/// The noted names.
pub(crate) const NOTED: &str = "SELECT name FROM noted ORDER BY name, name COLLATE BINARY";

/// The tables' numbers and names.
pub(crate) const NAMES: &str = "SELECT id, name FROM tab ORDER BY id, name COLLATE BINARY";

/// The columns of a table.
pub(crate) const COLUMNS: &str = "SELECT col, name FROM col WHERE tab = ?1 ORDER BY col";

/// The columns of a table that aren't indexed.
pub(crate) const SKIPS: &str = "SELECT col FROM skip WHERE tab = ?1 ORDER BY col";

/// The lists of a term.
pub(crate) const TERM_LISTS: &str =
    "SELECT docid, list FROM posting WHERE tab = ?1 AND term = ?2 ORDER BY docid";

/// The lists of the terms of a range, each with its term.
pub(crate) const PREFIX: &str =
    "SELECT docid, list, term FROM posting WHERE tab = ?1 AND term >= ?2 AND term < ?3 ORDER BY term, docid";

/// The lists of the terms of a range.
pub(crate) const PREFIX_LISTS: &str =
    "SELECT docid, list FROM posting WHERE tab = ?1 AND term >= ?2 AND term < ?3 ORDER BY term, docid";

// ---- changes

/// The name of a table goes.
pub(crate) const DROP_NAME: &str = "DELETE FROM tab WHERE id = ?1";

/// The names of its columns go.
pub(crate) const DROP_COLUMNS: &str = "DELETE FROM col WHERE tab = ?1";

/// Which of them aren't indexed goes.
pub(crate) const DROP_SKIPS: &str = "DELETE FROM skip WHERE tab = ?1";

/// Its cells go.
pub(crate) const DROP_CONTENTS: &str = "DELETE FROM cell WHERE tab = ?1";

/// Its lists go.
pub(crate) const DROP_LISTS: &str = "DELETE FROM posting WHERE tab = ?1";

/// Its sizes go.
pub(crate) const DROP_SIZES: &str = "DELETE FROM sizes WHERE tab = ?1";

/// Its lists go whose terms aren't below one.
pub(crate) const DROP_LISTS_FROM: &str = "DELETE FROM posting WHERE tab = ?1 AND term >= ?2";

/// The cells of a document go.
pub(crate) const DROP_CELLS: &str = "DELETE FROM cell WHERE tab = ?1 AND docid = ?2";

/// One column name goes.
pub(crate) const DROP_COLUMN: &str = "DELETE FROM col WHERE tab = ?1 AND col = ?2";

/// That one column isn't indexed goes.
pub(crate) const DROP_SKIP: &str = "DELETE FROM skip WHERE tab = ?1 AND col = ?2";

/// One cell goes.
pub(crate) const DROP_CELL: &str = "DELETE FROM cell WHERE tab = ?1 AND docid = ?2 AND col = ?3";

/// One list goes.
pub(crate) const DROP_LIST: &str =
    "DELETE FROM posting WHERE tab = ?1 AND term = ?2 AND docid = ?3";

/// One size goes.
pub(crate) const DROP_SIZE: &str = "DELETE FROM sizes WHERE tab = ?1 AND docid = ?2 AND col = ?3";

/// One noted name goes.
pub(crate) const DROP_NOTE: &str = "DELETE FROM noted WHERE name = ?1";

/// The name of a table comes.
pub(crate) const ADD_NAME: &str = "INSERT INTO tab (id, name) VALUES (?1, ?2)";

/// A column name comes.
pub(crate) const ADD_COLUMN: &str = "INSERT INTO col (tab, col, name) VALUES (?1, ?2, ?3)";

/// That a column isn't indexed comes.
pub(crate) const ADD_SKIP: &str = "INSERT INTO skip (tab, col) VALUES (?1, ?2)";

/// A cell comes.
pub(crate) const ADD_CELL: &str =
    "INSERT INTO cell (tab, docid, col, num, txt) VALUES (?1, ?2, ?3, ?4, ?5)";

/// A list comes.
pub(crate) const ADD_LIST: &str =
    "INSERT INTO posting (tab, term, docid, list) VALUES (?1, ?2, ?3, ?4)";

/// Eight lists come.
pub(crate) const ADD_LISTS: &str =
    "INSERT INTO posting (tab, term, docid, list) VALUES (?, ?, ?, ?), (?, ?, ?, ?), (?, ?, ?, ?), (?, ?, ?, ?), (?, ?, ?, ?), (?, ?, ?, ?), (?, ?, ?, ?), (?, ?, ?, ?)";

/// A size comes.
pub(crate) const ADD_SIZE: &str = "INSERT INTO sizes (tab, docid, col, n) VALUES (?1, ?2, ?3, ?4)";

/// A noted name comes.
pub(crate) const ADD_NOTE: &str = "INSERT INTO noted (name) VALUES (?1)";

// ---- tables

/// The table `meta`.
pub(crate) const MAKE_META: &str =
    "CREATE TABLE meta (one INTEGER PRIMARY KEY, version INTEGER NOT NULL) STRICT";

/// The table `tab`.
pub(crate) const MAKE_TAB: &str =
    "CREATE TABLE tab (id INTEGER PRIMARY KEY, name TEXT NOT NULL COLLATE NOCASE UNIQUE) STRICT";

/// The table `col`.
pub(crate) const MAKE_COL: &str =
    "CREATE TABLE col (tab INTEGER NOT NULL, col INTEGER NOT NULL, name TEXT NOT NULL, PRIMARY KEY (tab, col)) STRICT";

/// The table `cell`.
pub(crate) const MAKE_CELL: &str =
    "CREATE TABLE cell (tab INTEGER NOT NULL, docid INTEGER NOT NULL, col INTEGER NOT NULL, num INTEGER, txt TEXT, PRIMARY KEY (tab, docid, col), CHECK (num IS NULL OR txt IS NULL)) STRICT";

/// The table `posting`.
pub(crate) const MAKE_POSTING: &str =
    "CREATE TABLE posting (tab INTEGER NOT NULL, term TEXT NOT NULL, docid INTEGER NOT NULL, list BLOB NOT NULL, PRIMARY KEY (tab, term, docid)) STRICT";

/// The table `sizes`.
pub(crate) const MAKE_SIZES: &str =
    "CREATE TABLE sizes (tab INTEGER NOT NULL, docid INTEGER NOT NULL, col INTEGER NOT NULL, n INTEGER NOT NULL, PRIMARY KEY (tab, docid, col)) STRICT";

/// The table `noted`.
pub(crate) const MAKE_NOTED: &str =
    "CREATE TABLE noted (name TEXT NOT NULL PRIMARY KEY COLLATE NOCASE) STRICT";

/// The table `skip`.
pub const MAKE_SKIP: &str =
    "CREATE TABLE skip (tab INTEGER NOT NULL, col INTEGER NOT NULL, PRIMARY KEY (tab, col)) STRICT";
