//! Accesses to state.

ghost use Rattle.std.specs.Prelude.{◌≡◌, OnOk};
ghost use Rattle.std.specs.Option.{option_map};
ghost use Rattle.sdg_base.specs.declared.val.Num.TheVariants as num;
ghost use Rattle.sdg_base.specs.Arithmetic.{wrap};
ghost use Rattle.state_classes.specs.Shown.{signature_of};
ghost use Rattle.annotations.specs.Accesses as spec;

use crate::position::Position;
use crate::site::{FieldKind, Key, Reach};
use crate::walk::{Env, Walk, kind_at};
use java_tree::Declaration;
use sdg_base::{ClassName, Num, Val, ValueType, cast};
use state_classes::{Signature, state_method};
use std::alloc::AllocError;

fn method_in(class: Option<ClassName>, name: &[u8]) -> Option<Signature>
    ensures { option_map signature_of result ≡ spec.method_in class name.now }
{
    match class {
        Some(class) => state_method(class, name),
        None => None,
    }
}

/// The method of this name of the field of this number.
fn method_at(env: &Env, field: usize, name: &[u8]) -> Option<Signature>
    ensures { option_map signature_of result ≡ spec.method_at env.now field name.now }
{
    method_in(
        env.classes.as_slice().get(field).copied().unwrap_or(None),
        name,
    )
}

fn keyed_by(method: Option<Signature>) -> bool
    ensures { result ≡ spec.is_keyed (option_map signature_of method) }
{
    match method {
        Some(method) => method.keyed,
        None => false,
    }
}

fn is_value(found: ValueType) -> bool
    ensures { result ≡ spec.is_value found }
{
    !matches!(found, ValueType::Void)
}

fn value_of(method: Option<Signature>) -> bool
    ensures { result ≡ spec.answers_value (option_map signature_of method) }
{
    match method {
        Some(method) => is_value(method.result),
        None => false,
    }
}

/// Whether the first argument of a field's method of this name is the key.
fn is_keyed(env: &Env, field: usize, name: &[u8]) -> bool
    ensures { result ≡ spec.is_keyed (spec.method_at env.now field name.now) }
{
    keyed_by(method_at(env, field, name))
}

/// Whether a field's method of this name answers a value.
pub fn answers_value(env: &Env, field: usize, name: &[u8]) -> bool
    ensures { result ≡ spec.answers_value (spec.method_at env.now field name.now) }
{
    value_of(method_at(env, field, name))
}

fn low_half(value: i64) -> i64
    ensures { result ≡ wrap num.Int value }
{
    match cast(Num::Int, &Val::Long(value)) {
        Val::Int(value) => i64::from(value),
        _ => unreachable!(),
    }
}

/// The number that the digits of a literal write.
pub fn literal_value(digits: u64, long: bool) -> i64
    ensures { result ≡ spec.literal_value digits long }
{
    let value = digits.cast_signed();
    if long { value } else { low_half(value) }
}

/// What a name stands for as a key.
pub fn variable_key(declaration: Option<Declaration>) -> Key
    ensures { result ≡ spec.variable_key declaration }
{
    match declaration {
        Some(declaration) => Key::Variable(declaration),
        None => Key::Compound,
    }
}

fn is_partitioned(kind: FieldKind) -> bool
    ensures { result ≡ spec.is_partitioned kind }
{
    match kind {
        FieldKind::Partitioned => true,
        FieldKind::Partial => false,
    }
}

/// Where an access goes.
pub fn reach_of(kind: FieldKind, is_global: bool, key: Key) -> Reach
    ensures { result ≡ spec.reach_of kind is_global key }
{
    match kind {
        FieldKind::Partitioned => Reach::Key(key),
        FieldKind::Partial => {
            if is_global {
                Reach::Global
            } else {
                Reach::Local
            }
        }
    }
}

impl Walk {
    fn globally(
        &mut self,
        position: Position,
        global: Option<usize>,
        is_partitioned: bool,
    ) -> Result<(), AllocError>
        ensures { OnOk result (self.new ≡ spec.globally position global is_partitioned self.old) }
    {
        let Some(at) = global else {
            return Ok(());
        };
        self.note(is_partitioned, at, 4)?;
        self.note(!position.is_for_global(), at, 8)
    }

    /// Notes what is wrong with an access to a field, whose name comes next, by the method of this name.
    #[tactic(auto, unfolding(crate::specs::Accesses::accessed, crate::specs::Walks::noted))]
    pub fn access(
        &mut self,
        env: &Env,
        field: usize,
        position: Position,
        global: Option<usize>,
        name: &[u8],
    ) -> Result<(), AllocError>
        ensures { OnOk result (self.new ≡ spec.accessed env.now field position global name.now self.old) }
    {
        let at = self.at;
        let partitioned = is_partitioned(kind_at(env, field));
        let in_entry = self.in_entry;
        let in_header = self.in_header;
        self.note(partitioned && !is_keyed(env, field, name), at, 3)?;
        self.globally(position, global, partitioned)?;
        self.note(!position.is_whole() || in_header, at, 5)?;
        self.note(!in_entry, at, 6)
    }
}
