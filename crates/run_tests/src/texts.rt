//! Classes of the straight form, as texts.

ghost use Rattle.std.specs.Prelude.{IfSome};
ghost use Rattle.early_forms.specs.Names.{IsProper};

use early_forms::{StraightClass, straight_form};
use java_lexer::lex;
use java_parser::parse;
use std::alloc::Global;

/// The class of a text, or `None` where it is none of the form.
pub fn class_of(alloc: Global, text: &str) -> Option<StraightClass>
    ensures { IfSome result (λ class. IsProper class) }
{
    if text.len() >= 0xffff_ffff {
        return None;
    }
    let tokens = lex(alloc, text.as_bytes()).ok()?;
    let tree = parse(alloc, &tokens).ok()?;
    straight_form(alloc, &tree).ok()?
}
