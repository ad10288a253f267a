//! What the methods of a class are for.

ghost use Rattle.std.specs.Prelude.{◌≡◌};
ghost use Rattle.std.specs.List.{list_any};
ghost use Rattle.java_tree.specs.Kinds as spec;

use crate::tree::{Method, Modifier, Param};

/// How a method may be called.
#[derive(Clone, Copy, Debug, PartialEq, Eq)]
pub enum MethodKind {
    /// From outside alone.
    Entry,
    /// From methods.
    Helper,
    /// From methods, on what the instances of a field answer.
    Merge,
}

fn is_private(modifier: Modifier) -> bool
    ensures { result ≡ spec.is_private modifier }
{
    match modifier {
        Modifier::Private => true,
        Modifier::Public | Modifier::Static => false,
    }
}

fn takes_collection(params: &[Param]) -> bool
    ensures { result ≡ list_any (λ p. p.is_collection) params.now }
{
    params.iter().any(|p| p.is_collection)
}

fn are_private(modifiers: &[Modifier]) -> bool
    ensures { result ≡ list_any spec.is_private modifiers.now }
{
    modifiers.iter().any(|m| is_private(*m))
}

/// The kind of a method. One with a `@Collection` is a merge method, another private one a helper, and every other an
/// entry method.
pub fn kind_of(method: &Method) -> MethodKind
    ensures { result ≡ spec.kind_of method.now }
{
    if takes_collection(method.params.as_slice()) {
        MethodKind::Merge
    } else if are_private(method.modifiers.as_slice()) {
        MethodKind::Helper
    } else {
        MethodKind::Entry
    }
}
