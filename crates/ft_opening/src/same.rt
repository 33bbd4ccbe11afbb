//! Whether a schema is that of a store.
ghost use Rattle.std.specs.Prelude.{◌≡◌, ◌↔◌, ◌<◌, ℕ, suc, [], map, drop, length, if◌then◌else◌, IsTrue, MatchOption};
ghost use Rattle.std.specs.List.{list_any};
ghost use Rattle.sqlite_schema.specs.Code.{term_to};
ghost use Rattle.sqlite_schema.specs.Names.{same_name};
ghost use Rattle.sqlite.specs.declared.types.Value.TheVariants.{Null};
ghost use Rattle.sqlite.specs.Term.{lit, col, op2};
ghost use Rattle.sqlite.specs.Collation.TheVariants.{Binary};
ghost use Rattle.sqlite_sql.specs.declared.ops.BinaryOp.TheVariants.{Is};
ghost use Rattle.ft_opening.specs.Adopted.{no_schema, our_names};
ghost use Rattle.ft_opening.specs.Older.{schema_of, HasStoreTables};
ghost use Rattle.ft_opening.specs.Same.{table_shaped, index_of, index_name, uniques_of, orders_of, cell_test, cell_check, HasNoMore};

use sqlite_schema::code::{Op, Terms};
use sqlite_schema::names::same_name;
use sqlite_schema::schema::{Column, Index, Kind, Schema, Table};
use sqlite_sql::ops::BinaryOp;
use sqlite_value::keys::Collation;
use sqlite_value::value::Value;

/// Which tables a store has.
#[derive(Clone, Copy)]
pub(crate) enum Layout {
    /// Those of version 2, without `skip`.
    Older,
    /// Those of version 3.
    Present,
}

/// Whether a database has no object.
pub(crate) fn is_bare(schema: &Schema) -> bool
    ensures { IsTrue result ↔ (schema.now ≡ no_schema) }
{
    schema.tables.len() == 0 && schema.indexes.len() == 0 && schema.views.len() == 0
}

/// A column: its name, its type, whether it is NOT NULL, and its collation.
#[derive(Clone, Copy)]
struct Field(&'static str, Kind, bool, Collation);

const ONE: Field = Field("one", Kind::Integer, false, Collation::Binary);

const VERSION: Field = Field("version", Kind::Integer, true, Collation::Binary);

const ID: Field = Field("id", Kind::Integer, false, Collation::Binary);

const TABLE_NAME: Field = Field("name", Kind::Text, true, Collation::NoCase);

const TAB: Field = Field("tab", Kind::Integer, true, Collation::Binary);

const COL: Field = Field("col", Kind::Integer, true, Collation::Binary);

const NAME: Field = Field("name", Kind::Text, true, Collation::Binary);

const DOCID: Field = Field("docid", Kind::Integer, true, Collation::Binary);

const NUM: Field = Field("num", Kind::Integer, false, Collation::Binary);

const TXT: Field = Field("txt", Kind::Text, false, Collation::Binary);

const TERM: Field = Field("term", Kind::Text, true, Collation::Binary);

const LIST: Field = Field("list", Kind::Blob, true, Collation::Binary);

const N: Field = Field("n", Kind::Integer, true, Collation::Binary);

/// A key: the column that is the rowid, the places of the primary key, those of the key that has
/// an index, and its order.
#[derive(Clone, Copy)]
struct Key(Option<usize>, &'static [usize], &'static [usize], u64);

const ROWID: Key = Key(Some(0), &[0], &[], 0);

const ROWID_AND_NAME: Key = Key(Some(0), &[0], &[2], 2);

const ONE_NAME: Key = Key(None, &[1], &[1], 2);

const TWO: Key = Key(None, &[1, 2], &[1, 2], 0);

const THREE: Key = Key(None, &[1, 2, 3], &[1, 2, 3], 0);

/// A table: its name, the tree of its rows, its columns, its key, and whether it has a check.
#[derive(Clone, Copy)]
struct Shape(&'static str, u32, &'static [Field], Key, bool);

/// The tables of a store. One of version 2 has all but the last.
const SHAPES: [Shape; 8] = [
    Shape("meta", 0, &[ONE, VERSION], ROWID, false),
    Shape("tab", 1, &[ID, TABLE_NAME], ROWID_AND_NAME, false),
    Shape("col", 3, &[TAB, COL, NAME], TWO, false),
    Shape("cell", 5, &[TAB, DOCID, COL, NUM, TXT], THREE, true),
    Shape("posting", 7, &[TAB, TERM, DOCID, LIST], THREE, false),
    Shape("sizes", 9, &[TAB, DOCID, COL, N], THREE, false),
    Shape("noted", 11, &[TABLE_NAME], ONE_NAME, false),
    Shape("skip", 13, &[TAB, COL], TWO, false),
];

fn has_name(shapes: &[Shape], name: &[u8]) -> bool
    ensures { result ≡ list_any (λ s. same_name name.now s.0.now) shapes.now }
{
    let mut shapes = shapes.iter();
    shapes.any(|shape| same_name(name, shape.0.as_bytes()))
}

/// Whether a table of a store has this name.
pub(crate) fn is_our_name(name: &[u8]) -> bool
    ensures { result ≡ list_any (same_name name.now) our_names }
{
    has_name(&SHAPES, name)
}

/// What a part of a schema is compared with.
trait Shows<T> {
    ghost shown: { Self → T };

    fn is(&self, item: &T) -> bool
        ensures { IsTrue result ↔ (item.now ≡ shown self.now) };
}

impl Shows<Column> for Field {
    ghost use Rattle.ft_opening.specs.Same.{column_shaped};

    ghost shown = { column_shaped };

    fn is(&self, column: &Column) -> bool {
        column.name.as_slice() == self.0.as_bytes()
            && column.kind == self.1
            && column.is_strict
            && column.not_null == self.2
            && matches!(column.default, Value::Null)
            && column.collation == self.3
    }
}

// Whether these are the values that are shown, one for one.
fn are<T, S: Shows<T>>(items: &[T], shapes: &[S]) -> bool
    ensures { IsTrue result ↔ (items.now ≡ map S.Shows.shown shapes.now) }
{
    match (items, shapes) {
        ([], []) => true,
        ([item, items @ ..], [shape, shapes @ ..]) => shape.is(item) && are(items, shapes),
        _ => false,
    }
}

// Whether the term at a place tests that a column of a row is NULL.
fn is_null_test(nodes: &[Op], at: usize, column: usize) -> bool
    ensures { (depth : ℕ) → IsTrue result ↔ (term_to nodes.now (suc (suc depth)) at
        ≡ op2 (Is Binary) (col 1 column) (lit Null)) }
{
    let Some(Op::Binary(BinaryOp::Is(Collation::Binary), a, b)) = nodes.get(at) else {
        return false;
    };
    let is_column = match nodes.get(*a) {
        Some(Op::Column(slot, place)) => *slot == 1 && *place == column,
        _ => false,
    };
    is_column && matches!(nodes.get(*b), None | Some(Op::Literal(Value::Null)))
}

// Whether the term at a place tests that one of a cell's two values is NULL.
fn is_cell_test(nodes: &[Op], at: usize) -> bool
    ensures { (depth : ℕ) → IsTrue result ↔ (term_to nodes.now (suc (suc (suc depth))) at
        ≡ cell_test) }
{
    match nodes.get(at) {
        Some(Op::Binary(BinaryOp::Or, a, b)) => {
            is_null_test(nodes, *a, 4) && is_null_test(nodes, *b, 5)
        }
        _ => false,
    }
}

// Whether the one check is that test.
fn is_cell_check(checks: &Terms) -> bool
    ensures { IsTrue result ↔ (checks.now ≡ cell_check) }
{
    let nodes = checks.nodes.as_slice();
    match checks.roots.as_slice() {
        [root] => nodes.len() > 2 && is_cell_test(nodes, *root),
        _ => false,
    }
}

fn is_keyed(table: &Table, key: &[usize], digits: u64) -> bool
    ensures { IsTrue result ↔ ((table.now.uniques ≡ uniques_of key.now)
        × (table.now.orders ≡ orders_of key.now digits)) }
{
    match (
        key.is_empty(),
        table.uniques.as_slice(),
        table.orders.as_slice(),
    ) {
        (true, [], []) => true,
        (false, [unique], [order]) => unique.as_slice() == key && order.digits == digits,
        _ => false,
    }
}

// Whether a table has nothing that tables of a store don't have.
fn has_no_more(table: &Table) -> bool
    ensures { IsTrue result ↔ HasNoMore table.now }
{
    let stamps = &table.stamps;
    table.references.is_empty()
        && table.computed.is_empty()
        && stamps.places.is_empty()
        && stamps.terms.roots.is_empty()
        && stamps.formats.is_empty()
        && !table.is_counted
}

// Whether a check is there, which is that test, or none.
fn has_checks(checks: &Terms, is_checked: bool) -> bool
    ensures { IsTrue result ↔ (checks.now ≡ (if is_checked then cell_check else [])) }
{
    if is_checked {
        is_cell_check(checks)
    } else {
        checks.roots.is_empty()
    }
}

impl Shows<Table> for Shape {
    ghost use Rattle.ft_opening.specs.Same.{table_shaped};

    ghost shown = { table_shaped };

    fn is(&self, table: &Table) -> bool {
        let Shape(name, tree, columns, Key(key, primary, unique, digits), is_checked) = self;
        table.name.as_slice() == name.as_bytes()
            && table.tree == *tree
            && are(table.columns.as_slice(), columns)
            && table.key == *key
            && table.primary.as_slice() == *primary
            && is_keyed(table, unique, *digits)
            && has_checks(&table.checks, *is_checked)
            && has_no_more(table)
    }
}

// Whether a text is the name of the index of a table's key.
fn is_index_name(name: &[u8], table: &str) -> bool
    ensures { IsTrue result ↔ (name.now ≡ index_name table.now) }
{
    let Some(rest) = name.strip_prefix(b"sqlite_autoindex_") else {
        return false;
    };
    match rest.strip_suffix(b"_1") {
        Some(inner) => inner == table.as_bytes(),
        None => false,
    }
}

impl Shows<Index> for Shape {
    ghost use Rattle.ft_opening.specs.Same.{index_of};

    ghost shown = { index_of };

    fn is(&self, index: &Index) -> bool {
        let Shape(name, tree, _, Key(_, _, unique, digits), _) = self;
        is_index_name(index.name.as_slice(), name)
            && index.table == *tree
            && index.tree > 0
            && index.tree - 1 == *tree
            && index.columns.as_slice() == *unique
            && index.order.digits == *digits
            && index.is_unique
    }
}

// Whether a schema has these tables, of which all but the first have an index, and nothing else.
fn has_shapes(schema: &Schema, shapes: &[Shape]) -> bool
    requires { 0 < length shapes.now }
    ensures { IsTrue result ↔ (schema.now ≡ record {
      tables = map table_shaped shapes.now;
      indexes = map index_of (drop 1 shapes.now);
      views = [];
    }) }
{
    are(schema.tables.as_slice(), shapes)
        && are(schema.indexes.as_slice(), &shapes[1..])
        && schema.views.is_empty()
}

/// Which tables a store has that a database has, and nothing else.
pub(crate) fn layout_of(schema: &Schema) -> Option<Layout>
    ensures { MatchOption result (HasStoreTables schema.now → ⊥)
        (λ layout. schema.now ≡ schema_of layout) }
{
    let shapes: &[Shape] = &SHAPES;
    if has_shapes(schema, shapes) {
        Some(Layout::Present)
    } else if has_shapes(schema, &shapes[..7]) {
        Some(Layout::Older)
    } else {
        None
    }
}
