//! The texts of cells, and the places where their tokens stand.
ghost use Rattle.std.specs.Prelude.{◌≡◌, IfOk};
ghost use Rattle.ft_values.specs.Cells.{shown_value};
ghost use Rattle.ft_documents.specs.MadeIndex.{IsTextOf, token_spot};

use ft_content::Value;
use ft_query::Token;
use ft_values::Spot;
use itoa::Buffer;
use std::alloc::AllocError;

/// The text of a cell. The buffer is for the digits of a number.
pub(crate) fn text_of<'a>(value: &'a Value, buffer: &'a mut Buffer) -> &'a str
    ensures { IsTextOf (shown_value value.now) result.now }
{
    match value {
        Value::Null => "",
        Value::Int(number) => buffer.format(*number),
        Value::Text(text) => text.as_str(),
    }
}

// A number of a place. It has 32 bits, and there is no room for a text that needs more.
fn number(n: usize) -> Result<u32, AllocError>
    ensures { IfOk result (λ number. number ≡ n) }
{
    u32::try_from(n).map_err(|_| AllocError)
}

/// Where a token of a column stands.
pub(crate) fn spot_of(column: usize, token: &Token) -> Result<Spot, AllocError>
    ensures { IfOk result (λ spot. spot ≡ token_spot column token.now) }
{
    Ok(Spot {
        column: number(column)?,
        pos: number(token.pos)?,
        place: number(token.start)?,
        size: number(token.size)?,
    })
}
