//! Tokens.
use crate::expected::expect;
use ft_query::{Token, Tokenizer, tokens};
use std::alloc::{AllocError, Global};
use std::test::Fail;

fn tell(out: &mut String, token: &Token) -> Result<(), Fail> {
    write!(
        out,
        "{} {} {} {};",
        token.term, token.pos, token.start, token.size
    )?;
    Ok(())
}

// The tokens of a text, each with its number, place and size.
fn told_tokens(alloc: Global, text: &str) -> Result<String, Fail> {
    let mut out = String::new(alloc);
    for token in &tokens(alloc, text)? {
        tell(&mut out, token)?;
    }
    Ok(out)
}

// The next token, asked for once more where there was no memory for it.
fn next_token(tokenizer: &mut Tokenizer<'_>) -> Result<Option<Token>, AllocError> {
    match tokenizer.next() {
        Ok(found) => Ok(found),
        Err(_) => tokenizer.next(),
    }
}

// The tokens of a text as they are cut, with a line's end for each time that there is none.
fn cut_tokens(alloc: Global, text: &str) -> Result<String, Fail> {
    let mut out = String::new(alloc);
    let mut tokenizer = Tokenizer::new(alloc, text);
    for _ in 0..4 {
        match next_token(&mut tokenizer)? {
            Some(token) => tell(&mut out, &token)?,
            None => out.push_str("\n")?,
        }
    }
    Ok(out)
}

const TOKENS: [(&str, &str); 2] = [("Ærø café", "Ærø 0 0 5;café 1 6 5;"), ("-15", "15 0 1 2;")];

#[test]
fn tokens_of_texts(rt: HostRuntime) -> Result<(), Fail> {
    let alloc = rt.alloc();
    for (text, want) in TOKENS {
        expect(alloc, told_tokens(alloc, text)?.as_str(), want, text)?;
    }
    Ok(())
}

#[test]
fn tokens_are_cut_one_at_a_time(rt: HostRuntime) -> Result<(), Fail> {
    let alloc = rt.alloc();
    for (text, want) in [
        ("", "\n\n\n\n"),
        ("..", "\n\n\n\n"),
        (" Ærø, café", "Ærø 0 1 5;café 1 8 5;\n\n"),
        ("a b c d e", "a 0 0 1;b 1 2 1;c 2 4 1;d 3 6 1;"),
    ] {
        expect(alloc, cut_tokens(alloc, text)?.as_str(), want, text)?;
    }
    Ok(())
}
