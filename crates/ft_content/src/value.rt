//! Values of cells.
ghost use Rattle.std.specs.Prelude.{◌≡◌, [], if◌then◌else◌, slice_get};
ghost use Rattle.ft_values.specs.Cells.{shown_value};
ghost use Rattle.ft_content.specs.Content as content;
ghost use Rattle.ft_content.specs.Step as step;

use crate::names::is_docid;
use ft_values::Value;

/// Whether a value is a text over 1,000,000 bytes.
pub fn is_too_long(value: &Value) -> bool
    ensures { result ≡ content.is_too_long (shown_value value.now) }
{
    matches!(value, Value::Text(text) if text.len() > 1_000_000)
}

/// Whether U+0000 stands in a value.
pub fn has_nul(value: &Value) -> bool
    ensures { result ≡ content.has_nul (shown_value value.now) }
{
    matches!(value, Value::Text(text) if text.as_bytes().contains(&0))
}

/// The docid that a value gives under this name, if it gives one.
pub(crate) fn docid_under(name: &str, value: &Value) -> Option<i64>
    ensures { result ≡ slice_get (if content.is_docid name.now then step.docid_of_value
        (shown_value value.now) else []) 0 }
{
    match value {
        Value::Int(number) if is_docid(name) => Some(*number),
        _ => None,
    }
}
