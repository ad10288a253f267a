//! The first access in code, and what it makes of the task that begins there.

ghost use Rattle.std.specs.Prelude.{◌≡◌, IfOk};
ghost use Rattle.std.specs.Str.{bytes_eq};
ghost use Rattle.std.specs.Option.{option_copied};
ghost use Rattle.flat_code.specs.Types.{field_named};
ghost use Rattle.task_cutter.specs.Tasks.{is_access, from_access, accessed, is_part, is_partitioned, is_partitioned_kind, cut_kind, kind_by};

use flat_code::{FieldKind, GraphField, Instr, TaskKind};
use sdg_base::Name;
use sqlite_items::Items;
use std::alloc::{AllocError, Global};

fn is_access(instr: &Instr) -> bool
    ensures { result ≡ is_access instr.now }
{
    match instr {
        Instr::Access(_, _) => true,
        _ => false,
    }
}

/// The code from its first access on.
pub fn from_access(code: &[Instr]) -> &[Instr]
    ensures { result.now ≡ from_access code.now }
{
    for (at, instr) in code.iter().enumerate() {
        if is_access(instr) {
            return code.split_at(at).1;
        }
    }
    code.split_at(code.len()).1
}

/// The name of the field that an instruction accesses.
pub fn accessed(instr: Option<&Instr>) -> Option<&Name>
    ensures { option_copied result ≡ accessed (option_copied instr.entry) }
{
    match instr {
        Some(Instr::Access(name, _)) => Some(name),
        _ => None,
    }
}

/// Whether an instruction is a part.
pub fn is_part(instr: Option<&Instr>) -> bool
    ensures { result ≡ is_part (option_copied instr.entry) }
{
    match instr {
        Some(Instr::Part(_)) => true,
        _ => false,
    }
}

fn is_same(left: &[u8], right: &[u8]) -> bool
    ensures { result ≡ bytes_eq left.now right.now }
{
    left == right
}

fn is_partitioned_kind(kind: FieldKind) -> bool
    ensures { result ≡ is_partitioned_kind kind }
{
    match kind {
        FieldKind::Partitioned => true,
        FieldKind::Partial => false,
    }
}

/// Whether the field of a name is partitioned.
fn is_partitioned(fields: &[GraphField], name: &[u8]) -> bool
    ensures { result ≡ is_partitioned (field_named name.now fields.now) }
{
    for field in fields {
        if is_same(name, field.name.as_slice()) {
            return is_partitioned_kind(field.kind);
        }
    }
    false
}

fn kind_by(partitioned: bool, visit: bool) -> TaskKind
    ensures { result ≡ kind_by partitioned visit }
{
    if partitioned {
        TaskKind::Keyed
    } else if visit {
        TaskKind::Visit
    } else {
        TaskKind::Local
    }
}

/// The kind of a task that accesses a field, and whose visit ends in a part or not.
pub fn cut_kind(fields: &[GraphField], field: Option<&Name>, visit: bool) -> TaskKind
    ensures { result ≡ cut_kind fields.now (option_copied field.entry) visit }
{
    match field {
        Some(name) => kind_by(is_partitioned(fields, name.as_slice()), visit),
        None => kind_by(false, visit),
    }
}

/// A copy of a name, where there is one.
pub fn copied(alloc: Global, name: Option<&Name>) -> Result<Option<Name>, AllocError>
    ensures { IfOk result (λ copy. copy ≡ option_copied name.entry) }
{
    match name {
        Some(name) => Ok(Some(Items::from_slice(alloc, name.as_slice())?)),
        None => Ok(None),
    }
}
