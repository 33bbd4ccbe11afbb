//! Names of tables and columns. They are compared without ASCII case.
ghost use Rattle.std.specs.Prelude.{◌≡◌, ℕ, List, map, string_bytes, IfOk};
ghost use Rattle.std.specs.List.{list_any, list_all};
ghost use Rattle.ft_content.specs.Content as content;

use ft_values::same_name;
use std::alloc::{AllocError, Global};
use std::collections::BTreeSet;

/// Whether a name is one of the two of the docid.
pub fn is_docid(name: &str) -> bool
    ensures { result ≡ content.is_docid name.now }
{
    same_name(name, "docid") || same_name(name, "rowid")
}

/// Whether a table or a column may be given this name.
pub(crate) fn is_name(name: &str) -> bool
    ensures { result ≡ content.is_name name.now }
{
    !name.is_empty() && name.len() <= 100 && !name.as_bytes().contains(&0)
}

/// Whether each of these names may be given.
pub fn are_names(names: &[String]) -> bool
    ensures { result ≡ list_all (λ n. content.is_name (string_bytes n)) names.now }
{
    names.iter().all(|name| is_name(name.as_str()))
}

/// What has a name.
pub(crate) trait Named {
    ghost name_of: { Self → List ℕ };

    fn name(&self) -> &str
        ensures { result.now ≡ name_of self.now };
}

impl Named for String {
    ghost name_of = { string_bytes };

    fn name(&self) -> &str {
        self.as_str()
    }
}

/// Whether one of these has this name.
pub(crate) fn has_name<T: Named>(named: &[T], name: &str) -> bool
    ensures { result ≡ list_any (λ n. content.same_name name.now (T.name_of n)) named.now }
{
    named.iter().any(|other| same_name(name, other.name()))
}

// Whether one of these names is that of the docid.
fn has_docid(names: &[String]) -> bool
    ensures { result ≡ list_any (λ n. content.is_docid (string_bytes n)) names.now }
{
    names.iter().any(|name| is_docid(name.as_str()))
}

// Whether two of these have one name, by a set.
fn repeats_in_set<T: Named>(alloc: Global, named: &[T]) -> Result<bool, AllocError>
    ensures { IfOk result (λ b. b ≡ content.repeats_name (map T.name_of named.now)) }
{
    let mut small = BTreeSet::new(alloc);
    for one in named {
        if !small.insert(one.name().to_ascii_lowercase(alloc)?)? {
            return Ok(true);
        }
    }
    Ok(false)
}

// The same, each by those after it.
fn repeats_behind<T: Named>(named: &[T]) -> bool
    ensures { result ≡ content.repeats_name (map T.name_of named.now) }
{
    for k in 0..named.len() {
        if has_name(&named[k + 1..], named[k].name()) {
            return true;
        }
    }
    false
}

/// Whether two of these have one name. Where there is no memory for a set, it takes time in the
/// square of their number.
pub(crate) fn repeats<T: Named>(alloc: Global, named: &[T]) -> bool
    ensures { result ≡ content.repeats_name (map T.name_of named.now) }
{
    repeats_in_set(alloc, named).unwrap_or_else(|_| repeats_behind(named))
}

/// Whether a name stands twice among these.
pub fn repeats_name(alloc: Global, names: &[String]) -> bool
    ensures { result ≡ content.repeats_name (map string_bytes names.now) }
{
    repeats(alloc, names)
}

/// Whether the columns of a table clash with one another, with docid or with the table.
#[tactic(auto, using(crate::proofs::Lists::any_of_map))]
pub fn names_clash(alloc: Global, table: &str, columns: &[String]) -> bool
    ensures { result ≡ content.names_clash table.now (map string_bytes columns.now) }
{
    repeats(alloc, columns) || has_docid(columns) || has_name(columns, table)
}
