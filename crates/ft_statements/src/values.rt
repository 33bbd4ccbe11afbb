//! Values of a statement.
ghost use Rattle.std.specs.Prelude.{◌≡◌, ◌+◌, ◌^◌, min, option_map, Some};
ghost use Rattle.ft_values.specs.Cells.{shown_value};
ghost use Rattle.ft_values.specs.Cells.{Cell};
ghost use Rattle.ft_statements.specs.Values as numbers;
ghost use Rattle.ft_statements.specs.Reading.{read};
ghost use Rattle.ft_statements.specs.Grammar as forms;
ghost use Rattle.ft_statements.specs.Views.{seen, rest_of, Gives, Advances};

use crate::reading::{Reader, Spelled};
use crate::words::Token;
use ft_commands::StatementFault;
use ft_values::Value;
use shell_text::SqlKind;

// The size of the least number of 64 bits.
const MOST_BELOW_ZERO: u64 = 9_223_372_036_854_775_808;

/// The number that digits write, where one that is too large for 64 bits with a sign stands as the
/// least such number.
pub(crate) fn digits_value(digits: &[u8]) -> u64
    ensures { result ≡ min (numbers.digits_value digits.now) 9223372036854775809 }
{
    let mut number = 0u64;
    for digit in digits {
        let more = number
            .saturating_mul(10)
            .saturating_add(u64::from(digit.saturating_sub(b'0')));
        number = more.min(MOST_BELOW_ZERO + 1);
    }
    number
}

// The number with its sign, where it is within 64 bits.
fn signed(negative: bool, number: u64) -> Option<i64>
    ensures { result ≡ numbers.signed negative number }
{
    if negative && number == MOST_BELOW_ZERO {
        return Some(i64::MIN);
    }
    let positive = i64::try_from(number).ok()?;
    Some(if negative { -positive } else { positive })
}

// The number that a word is, where one that is too large stands as `digits_value` has it.
fn number_of(word: &Token<'_>) -> Result<u64, StatementFault>
    ensures { Gives (λ n. n) result
        (option_map (λ n. min n 9223372036854775809) (numbers.number_of (seen word.now))) }
{
    match word.kind {
        SqlKind::Number => Ok(digits_value(word.text.as_bytes())),
        _ => Err(StatementFault::Syntax),
    }
}

// Whether a minus sign stands there; a sign is passed.
#[tactic(auto, unfolding(crate::specs::Grammar::minus))]
fn minus(words: &mut Reader<'_>) -> bool
    ensures { Some (result, rest_of words.new) ≡ read forms.minus (rest_of words.old) }
{
    if words.takes("-") {
        return true;
    }
    words.takes("+");
    false
}

/// A number with a sign or without one.
#[tactic(auto, unfolding(crate::specs::Grammar::integer))]
pub(crate) fn integer(words: &mut Reader<'_>) -> Result<i64, StatementFault>
    ensures { Advances (λ n. n) (read forms.integer) words.old words.new result }
{
    let negative = minus(words);
    let number = number_of(words.next()?)?;
    signed(negative, number).ok_or(StatementFault::Syntax)
}

/// A number of rows.
#[tactic(auto, unfolding(crate::specs::Grammar::count))]
pub(crate) fn count(words: &mut Reader<'_>) -> Result<u64, StatementFault>
    ensures { Advances (λ n. n) (read forms.count) words.old words.new result }
{
    let number = number_of(words.next()?)?;
    (number < MOST_BELOW_ZERO)
        .then_some(number)
        .ok_or(StatementFault::Syntax)
}

// NULL, a text or a number.
impl Spelled for Value {
    ghost Form = { Cell };

    ghost shown = { shown_value };

    ghost form = { read forms.value };

    #[tactic(auto, unfolding(crate::specs::Grammar::value))]
    fn read(words: &mut Reader<'_>) -> Result<Value, StatementFault> {
        if words.takes("NULL") {
            return Ok(Value::Null);
        }
        let start = *words;
        match words.literal() {
            Err(StatementFault::Syntax) => {
                *words = start;
                Ok(Value::Int(integer(words)?))
            }
            text => Ok(Value::Text(text?)),
        }
    }
}
