//! What the front end says of a text.

use crate::groups::grouped;
use crate::texts::bytes_of;
use crate::tokens::{counted, placed, shown};
use annotations::{AnnotError, annotated};
use early_forms::straight_form;
use java_flow::{FlowError, flow};
use java_lexer::{LexError, lex};
use java_parser::{ParseError, parse};
use java_tree::{Class, Tokens};
use java_types::{TypeError, check};
use std::alloc::{AllocError, Global};
use thiserror::Error;

/// Why a text goes no further.
#[derive(Debug, Drop, Error)]
enum Refused {
    #[error("a text of 4 GiB")]
    Long,
    #[error(transparent)]
    Tokens(#[from] LexError),
    #[error(transparent)]
    Syntax(#[from] ParseError),
    #[error(transparent)]
    Types(#[from] TypeError),
    #[error(transparent)]
    Flow(#[from] FlowError),
    #[error(transparent)]
    Annotations(#[from] AnnotError),
    #[error("out of memory")]
    Memory(#[from(alloc)] AllocError),
}

fn tokens_of(alloc: Global, text: &str) -> Result<Tokens, Refused> {
    let bytes = bytes_of(alloc, text)?;
    if bytes.len() >= 0xffff_ffff {
        return Err(Refused::Long);
    }
    Ok(lex(alloc, &bytes)?)
}

fn class_of(alloc: Global, text: &str) -> Result<Class, Refused> {
    let tokens = tokens_of(alloc, text)?;
    Ok(parse(alloc, &tokens)?)
}

/// How many types and names a class has.
fn types(alloc: Global, text: &str) -> Result<String, Refused> {
    let typed = check(alloc, class_of(alloc, text)?)?;
    let (exprs, names) = (typed.types.exprs.len(), typed.types.names.len());
    Ok(format!(in alloc; "{exprs} types, {names} names")?)
}

fn flow_of(alloc: Global, text: &str) -> Result<String, Refused> {
    let typed = check(alloc, class_of(alloc, text)?)?;
    flow(alloc, &typed)?;
    Ok(String::from_str(alloc, "accepted")?)
}

/// How many fields and sites a class has.
fn annotations_of(alloc: Global, text: &str) -> Result<String, Refused> {
    let annotated = annotated(alloc, check(alloc, class_of(alloc, text)?)?)?;
    let (fields, sites) = (annotated.kinds.len(), annotated.sites.len());
    Ok(format!(in alloc; "{fields} fields, {sites} sites")?)
}

/// The same of a class whose fields are the partitioned table `t` and matrix `m`, and the partial table `p` and counter
/// `c`, with these methods.
fn accesses(alloc: Global, text: &str) -> Result<String, Refused> {
    let text = format!(in alloc;
        "class A {{ @Partitioned Table t = new Table(); @Partitioned Matrix m = new Matrix();\n@Partial Table p = new Table(); @Partial Counter c = new Counter();\n{text} }}"
    )?;
    annotations_of(alloc, text.as_str())
}

/// Whether a class is of the straight form.
fn form(alloc: Global, text: &str) -> Result<String, Refused> {
    let class = class_of(alloc, text)?;
    let said = if straight_form(alloc, &class)?.is_some() {
        "straight"
    } else {
        "not straight"
    };
    Ok(String::from_str(alloc, said)?)
}

/// Whether a class with the table `t` and these members behind it is of the straight form.
fn members(alloc: Global, text: &str) -> Result<String, Refused> {
    let text = format!(in alloc; "class C {{ @Partitioned Table t = new Table(); {text} }}")?;
    form(alloc, text.as_str())
}

fn classified(alloc: Global, text: &str) -> Result<String, Refused> {
    let _class = class_of(alloc, text)?;
    Ok(String::from_str(alloc, "a class")?)
}

/// A class whose one method has this body.
fn body(alloc: Global, text: &str) -> Result<String, Refused> {
    let text = format!(in alloc; "class A {{ void f() {{ {text} }} }}")?;
    classified(alloc, text.as_str())
}

/// A class whose one method returns this expression.
fn groups(alloc: Global, text: &str) -> Result<String, Refused> {
    let text = format!(in alloc; "class A {{ int f() {{ return {text}; }} }}")?;
    let class = class_of(alloc, text.as_str())?;
    Ok(grouped(alloc, &class)?)
}

/// What errors say that no text gives.
fn memory(alloc: Global) -> Result<String, Refused> {
    let tokens = format!(in alloc; "{}; {}", LexError::Memory, ParseError::Memory)?;
    let rules = format!(in alloc; "{}; {}", TypeError::Memory, FlowError::Memory)?;
    Ok(format!(in alloc; "{tokens}; {rules}; {}", AnnotError::Memory)?)
}

fn answer(alloc: Global, kind: &str, text: &str) -> Result<String, Refused> {
    match kind {
        "tokens" => Ok(shown(alloc, &tokens_of(alloc, text)?)?),
        "count" => Ok(counted(alloc, &tokens_of(alloc, text)?)?),
        "places" => Ok(placed(alloc, &class_of(alloc, text)?)?),
        "class" => classified(alloc, text),
        "body" => body(alloc, text),
        "groups" => groups(alloc, text),
        "types" => types(alloc, text),
        "flow" => flow_of(alloc, text),
        "annotations" => annotations_of(alloc, text),
        "accesses" => accesses(alloc, text),
        "form" => form(alloc, text),
        "members" => members(alloc, text),
        "memory" => memory(alloc),
        _ => Ok(format!(in alloc; "no kind of row: {kind}")?),
    }
}

/// What is said of a text of this kind.
pub(crate) fn said(alloc: Global, kind: &str, text: &str) -> Result<String, AllocError> {
    match answer(alloc, kind, text) {
        Ok(line) => Ok(line),
        Err(refused) => format!(in alloc; "{refused}"),
    }
}
