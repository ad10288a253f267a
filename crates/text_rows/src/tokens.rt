//! Tokens as texts.

use java_tree::{Class, Kind, Token, Tokens};
use sdg_base::Name;
use std::alloc::{AllocError, Global};

/// Adds a name.
pub(crate) fn add_name(line: &mut String, name: &Name) -> Result<(), AllocError> {
    for byte in name.as_slice() {
        line.push(char::from(*byte))?;
    }
    Ok(())
}

fn add_token(line: &mut String, token: &Token) -> Result<(), AllocError> {
    write!(line, "{}:{} ", token.place.line, token.place.column)?;
    match &token.kind {
        Kind::Identifier(name) => {
            add_name(line, name)?;
            line.push_str(" ")
        }
        Kind::Number {
            digits,
            decimal,
            long,
        } => {
            let base = if *decimal { "decimal" } else { "other" };
            let suffix = if *long { "L" } else { "" };
            write!(line, "<{digits}{suffix} {base}> ")
        }
        Kind::Reserved(word) => write!(line, "{word:?} "),
        Kind::Symbol(symbol) => write!(line, "{symbol:?} "),
    }
}

/// Each token as its place and its name, then the place behind the text.
pub(crate) fn shown(alloc: Global, tokens: &Tokens) -> Result<String, AllocError> {
    let mut line = String::new(alloc);
    for token in tokens.list.as_slice() {
        add_token(&mut line, token)?;
    }
    write!(&mut line, "{}:{}", tokens.end.line, tokens.end.column)?;
    Ok(line)
}

/// How many tokens there are, and the place behind the text.
pub(crate) fn counted(alloc: Global, tokens: &Tokens) -> Result<String, AllocError> {
    let count = tokens.list.len();
    format!(in alloc; "{count} tokens, {}:{}", tokens.end.line, tokens.end.column)
}

/// The place of each token of a class, and how many there are.
pub(crate) fn placed(alloc: Global, class: &Class) -> Result<String, AllocError> {
    let mut line = String::new(alloc);
    for place in class.places.as_slice() {
        write!(&mut line, "{}:{} ", place.line, place.column)?;
    }
    write!(&mut line, "{} places", class.places.len())?;
    Ok(line)
}
