//! The class that a text writes, or why it is refused.

ghost use Rattle.std.specs.Prelude.{◌≡◌, ◌≤◌, [], length, IfOk};
ghost use Rattle.std.specs.String.{string_bytes};
ghost use Rattle.java_types.specs.Check.{findings_of, types_of};
ghost use Rattle.java_flow.specs.Findings.{findings as flow_findings};
ghost use Rattle.java_tree.specs.declared.tree.Class.{Class as ClassOf};
ghost use Rattle.sdg_top.specs.Accepted.{IsClassText, IsAccepted};
ghost use Rattle.sdg_top.specs.Acceptance.{phase_text, Judges, IsTaken, RefusesAt, JudgesTree, JudgesTokens};

use annotations::{AnnotError, Annotated, annotated};
use java_flow::{FlowError, flow};
use java_lexer::{LexError, lex};
use java_parser::{ParseError, parse};
use java_tree::{Class, Place, Tokens, Typed};
use java_types::{TypeError, check};
use std::alloc::{AllocError, Global};

/// The phases in which a class is judged, in their order. A rule on types or on annotations has its number.
#[derive(Clone, Copy)]
pub(crate) enum Phase {
    Byte,
    Number,
    Comment,
    Syntax,
    Type(u8),
    Unreachable,
    MissingReturn,
    Unassigned,
    Annotation(u8),
}

impl Phase {
    /// Its name in a refusal.
    pub(crate) fn text(self, alloc: Global) -> Result<String, AllocError>
        ensures { IfOk result (λ text. string_bytes text ≡ phase_text self) }
    {
        match self {
            Phase::Byte => String::from_str(alloc, "byte"),
            Phase::Number => String::from_str(alloc, "number"),
            Phase::Comment => String::from_str(alloc, "comment"),
            Phase::Syntax => String::from_str(alloc, "syntax"),
            Phase::Type(rule) => format!(in alloc; "type {rule}"),
            Phase::Unreachable => String::from_str(alloc, "flow 1"),
            Phase::MissingReturn => String::from_str(alloc, "flow 2"),
            Phase::Unassigned => String::from_str(alloc, "flow 3"),
            Phase::Annotation(rule) => format!(in alloc; "annotation {rule}"),
        }
    }
}

/// An accepted class, or the phase and the place of a refusal.
#[derive(Drop)]
pub(crate) enum Judgement {
    Takes(Annotated),
    Refuses(Phase, Place),
}

/// Where phases stand that name no place of their own.
pub(crate) const FIRST: Place = Place { line: 1, column: 1 };

/// Judges a class that breaks no rule on types or on the flow of statements.
fn judge_annotations(alloc: Global, typed: Typed) -> Result<Judgement, AllocError>
    requires typed { findings_of typed.class ≡ [] }
    requires flows { flow_findings typed.class ≡ [] }
    requires types { typed.types ≡ types_of typed.class }
    ensures { IfOk result (JudgesTree typed.class) }
{
    match annotated(alloc, typed) {
        Ok(annotated) => Ok(Judgement::Takes(annotated)),
        Err(AnnotError::Rule { rule, place }) => {
            Ok(Judgement::Refuses(Phase::Annotation(rule), place))
        }
        Err(AnnotError::Memory) => Err(AllocError),
    }
}

/// Judges a class that breaks no rule on types.
fn judge_flow(alloc: Global, typed: Typed) -> Result<Judgement, AllocError>
    requires typed { findings_of typed.class ≡ [] }
    requires types { typed.types ≡ types_of typed.class }
    ensures { IfOk result (JudgesTree typed.class) }
{
    match flow(alloc, &typed) {
        Ok(()) => judge_annotations(alloc, typed),
        Err(FlowError::Unreachable(at)) => Ok(Judgement::Refuses(Phase::Unreachable, at)),
        Err(FlowError::MissingReturn(at)) => Ok(Judgement::Refuses(Phase::MissingReturn, at)),
        Err(FlowError::Unassigned(at)) => Ok(Judgement::Refuses(Phase::Unassigned, at)),
        Err(FlowError::Memory) => Err(AllocError),
    }
}

/// Judges a tree that has been read, which is the only one with its tokens.
fn judge_tree(alloc: Global, tree: Class) -> Result<Judgement, AllocError>
    ensures { IfOk result (JudgesTree tree) }
{
    match check(alloc, tree) {
        Ok(typed) => judge_flow(alloc, typed),
        Err(TypeError::Rule { rule, place }) => Ok(Judgement::Refuses(Phase::Type(rule), place)),
        Err(TypeError::Memory) => Err(AllocError),
    }
}

/// Judges the tokens of a text.
fn judge_tokens(alloc: Global, tokens: &Tokens) -> Result<Judgement, AllocError>
    ensures { IfOk result (JudgesTokens tokens.now.list) }
{
    match parse(alloc, tokens) {
        Ok(tree) => judge_tree(alloc, tree),
        Err(ParseError::NoClass { .. }) => Ok(Judgement::Refuses(Phase::Syntax, FIRST)),
        Err(ParseError::Memory) => Err(AllocError),
    }
}

/// The refusal that an error of the lexer is, unless memory was short.
fn refusal(error: LexError) -> Result<Judgement, AllocError>
    ensures { IfOk result (RefusesAt error) }
{
    match error {
        LexError::BadByte(at) => Ok(Judgement::Refuses(Phase::Byte, at)),
        LexError::BadNumber(at) => Ok(Judgement::Refuses(Phase::Number, at)),
        LexError::OpenComment(at) => Ok(Judgement::Refuses(Phase::Comment, at)),
        LexError::Memory => Err(AllocError),
    }
}

/// Judges a class text: the phases one after the other, each over what the one before it made.
pub(crate) fn judge(alloc: Global, text: &[u8]) -> Result<Judgement, AllocError>
    requires { length text.now ≤ 1048576 }
    ensures judges { IfOk result (Judges text.now) }
    ensures takes { (class : ClassOf) → IsClassText text.now class → IsAccepted class → IfOk result (IsTaken class) }
{
    match lex(alloc, text) {
        Ok(tokens) => judge_tokens(alloc, &tokens),
        Err(error) => refusal(error),
    }
}
