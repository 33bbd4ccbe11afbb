//! What dot-commands set and print.
ghost use Rattle.std.specs.Prelude.{◌≡◌, map, string_bytes, IfOk};
ghost use Rattle.std.specs.List.{join_with_byte};
ghost use Rattle.ft_statements.specs.Views.{command_as};
ghost use Rattle.ft_statements.specs.Settings as forms;

use crate::dots::DotCommand;
use shell_text::{SetFault, Settings};
use std::alloc::{AllocError, Global};

/// Sets what the command sets, if it sets anything. After a fault all is as it was.
pub fn apply(settings: &mut Settings, command: &DotCommand) -> Result<(), SetFault>
    ensures { forms.Applies (command_as command.now) settings.old settings.new result }
{
    match command {
        DotCommand::Mode(mode) => settings.set_mode(*mode),
        DotCommand::Headers(shown) => settings.set_headers(*shown),
        DotCommand::Separator(text) => return settings.set_separator(text.as_str()),
        DotCommand::Null(text) => {
            if settings.set_null(text.as_str()).is_err() {
                return Err(SetFault::Memory);
            }
        }
        DotCommand::Echo(on) => settings.set_echo(*on),
        DotCommand::Bail(on) => settings.set_bail(*on),
        _ => {}
    }
    Ok(())
}

/// What `.print` writes.
pub fn print_text(alloc: Global, words: &[String]) -> Result<String, AllocError>
    ensures { IfOk result (λ text. string_bytes text
        ≡ forms.print_text (map string_bytes words.now)) }
{
    let mut text = words_text(alloc, words)?;
    text.push('\n')?;
    Ok(text)
}

// Words with a space between each two.
fn words_text(alloc: Global, words: &[String]) -> Result<String, AllocError>
    ensures { IfOk result (λ text. string_bytes text
        ≡ join_with_byte 32 (map string_bytes words.now)) }
{
    let [first, rest @ ..] = words else {
        return Ok(String::new(alloc));
    };
    let mut text = String::from_str(alloc, first.as_str())?;
    for word in rest {
        text.push(' ')?;
        text.push_str(word.as_str())?;
    }
    Ok(text)
}
