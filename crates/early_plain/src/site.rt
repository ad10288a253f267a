//! The site of a state access: its field, and its key as it is written.

ghost use Rattle.std.specs.Prelude.{◌≡◌, if◌then◌else◌, None};
ghost use Rattle.early_source.specs.Sites.{after_declaration, is_key, same_key, same_site};
ghost use Rattle.early_plain.specs.Keys.{atom_key, written_key};

use early_forms::{Atom, Sum};
use sdg_base::Name;
use std::marker::Model;

/// A field and a key.
#[derive(Drop)]
pub struct Site<'a> {
    pub field: &'a Name,
    pub key: &'a Sum,
}

impl<'a> Model for Site<'a> {
    ghost use Rattle.early_source.specs.Sites.{Site as Written};
    ghost use Rattle.early_plain.specs.Keys.{written_site};

    ghost Value = { Written };

    ghost view = { λ s. written_site s.field.now s.key.now };
}

fn same_atom(left: &Atom, right: &Atom) -> bool
    ensures { result ≡ same_key (atom_key left.now) (atom_key right.now) }
{
    match (left, right) {
        (Atom::Literal(a), Atom::Literal(b)) => *a == *b,
        (Atom::Variable(a), Atom::Variable(b)) => a.as_slice() == b.as_slice(),
        _ => false,
    }
}

fn has_same_key(left: &Sum, right: &Sum) -> bool
    ensures { result ≡ same_key (written_key left.now) (written_key right.now) }
{
    if left.others.is_empty() && right.others.is_empty() {
        same_atom(&left.first, &right.first)
    } else {
        false
    }
}

/// Whether an access at a site belongs to the block of the access before.
pub fn is_same(current: &Option<Site>, site: &Site) -> bool
    ensures { result ≡ same_site current.now site.now }
{
    match current {
        Some(current) => {
            current.field.as_slice() == site.field.as_slice() && has_same_key(current.key, site.key)
        }
        None => false,
    }
}

/// Whether a key is this variable.
fn is_variable(key: &Sum, name: &Name) -> bool
    ensures { result ≡ is_key name.now (written_key key.now) }
{
    match &key.first {
        Atom::Variable(variable) if key.others.is_empty() => {
            variable.as_slice() == name.as_slice()
        }
        _ => false,
    }
}

/// Whether a declaration of a variable ends the current site, which it does where it is the key.
pub fn is_ended(current: &Option<Site>, name: &Name) -> bool
    ensures { after_declaration name.now current.now ≡ (if result then None else current.now) }
{
    match current {
        Some(site) => is_variable(site.key, name),
        None => false,
    }
}
