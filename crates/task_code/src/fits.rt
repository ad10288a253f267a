//! Which items a cell takes.

ghost use Rattle.std.specs.Prelude.{◌≡◌, Some, slice_get};
ghost use Rattle.std.specs.Option.{option_copied};
ghost use Rattle.flat_code.specs.Fits as spec;
ghost use Rattle.flat_code.specs.Items.{width_of};
ghost use Rattle.flat_code.specs.Types as types;
ghost use Rattle.graph_safety.specs.Safe.{AreWidths};
ghost use Rattle.flat_code.specs.Fits.{fits};
ghost use Rattle.task_code.specs.Taken.{has_type_at, is_absent, takes_part};

use crate::signatures::{number_of, signature_at};
use flat_code::{Graph, GraphMethod, Instr, MethodKind, Task, TaskKind, VarType, VariableType};
use placement::slot_of;
use sdg_base::{Item, Outcome, Port, TURNS_AT_START, Val, ValueType, Widths, type_of};
use sqlite_items::at;

fn type_by(variable_type: VarType) -> ValueType
    ensures { result ≡ types.type_by variable_type }
{
    match variable_type {
        VarType::Int => ValueType::Int,
        VarType::Long => ValueType::Long,
        VarType::Boolean => ValueType::Boolean,
        VarType::Vector => ValueType::Vector,
    }
}

/// The type of the one value that a variable has.
fn type_of_variable(method: &GraphMethod, variable: u32) -> Option<ValueType>
    ensures { result ≡ types.type_of_variable method.now variable }
{
    match at(method.vars.as_slice(), variable as usize) {
        Some(VariableType::One(of)) => Some(type_by(*of)),
        Some(VariableType::Collection(_)) => None,
        None => None,
    }
}

fn same_type(left: ValueType, right: ValueType) -> bool
    ensures { result ≡ types.same_type left right }
{
    left == right
}

/// Whether a value is of a type.
fn is_type(expected: Option<ValueType>, value: &Val) -> bool
    ensures { result ≡ spec.is_type expected value.now }
{
    match expected {
        Some(expected) => same_type(type_of(value), expected),
        None => false,
    }
}

/// Whether a value is there, and of the type of a variable.
fn has_type_at(method: &GraphMethod, variable: u32, value: Option<&Val>) -> bool
    ensures { result ≡ has_type_at method.now variable (option_copied value.entry) }
{
    match value {
        Some(value) => is_type(type_of_variable(method, variable), value),
        None => false,
    }
}

/// Whether nothing is there.
fn is_absent(value: Option<&Val>) -> bool
    ensures { result ≡ is_absent (option_copied value.entry) }
{
    match value {
        Some(_) => false,
        None => true,
    }
}

/// Whether values are of the types of the variables with these numbers.
fn has_types(method: &GraphMethod, numbers: &[u32], values: &[Val]) -> bool
    ensures { result ≡ spec.has_types method.now numbers.now values.now }
{
    for (index, number) in numbers.iter().enumerate() {
        let value = at(values, index);
        if !has_type_at(method, *number, value) {
            return false;
        }
    }
    let more = at(values, numbers.len());
    is_absent(more)
}

/// Whether values are of the types of the parameters.
fn are_arguments(method: &GraphMethod, values: &[Val]) -> bool
    ensures { result ≡ spec.has_types method.now (spec.parameters method.now) values.now }
{
    for number in 0..method.params {
        let value = at(values, number as usize);
        if !has_type_at(method, number, value) {
            return false;
        }
    }
    let more = at(values, method.params as usize);
    is_absent(more)
}

/// Whether a number names an entry method that takes these arguments.
fn starts(graph: &Graph, method: u16, args: &[Val]) -> bool
    ensures { result ≡ spec.starts (slice_get graph.now.methods method) args.now }
{
    match at(graph.methods.as_slice(), usize::from(method)) {
        Some(method) => match method.kind {
            MethodKind::Entry => are_arguments(method, args),
            MethodKind::Helper | MethodKind::Merge => false,
        },
        None => false,
    }
}

fn is_kind(kind: TaskKind, of: TaskKind) -> bool
    ensures { result ≡ spec.is_kind kind of }
{
    kind == of
}

/// Whether values are of the types of the variables that a task's items carry.
fn values_fit(graph: &Graph, task: &Task, values: &[Val]) -> bool
    ensures { result ≡ spec.values_fit (slice_get graph.now.methods task.now.method) task.now values.now }
{
    match at(graph.methods.as_slice(), usize::from(task.method)) {
        Some(method) => has_types(method, task.vars.as_slice(), values),
        None => false,
    }
}

/// Whether a task is of a kind, and takes so many turns and these values.
fn takes(graph: &Graph, kind: TaskKind, task: &Task, turns: u32, values: &[Val]) -> bool
    ensures { result ≡ spec.takes graph.now kind (Some task.now) turns values.now }
{
    is_kind(kind, task.kind) && turns <= TURNS_AT_START && values_fit(graph, task, values)
}

/// Whether a task is of a field.
fn is_field(graph: &Graph, task: &Task, field: u16) -> bool
    ensures { result ≡ spec.is_field graph.now (Some task.now) field }
{
    match &task.field {
        Some(name) => match number_of(name.as_slice(), graph.fields.as_slice()) {
            Some(number) => number == usize::from(field),
            None => false,
        },
        None => false,
    }
}

/// Whether a task is of a field and of a kind, and takes so many turns and these values.
fn takes_at(
    graph: &Graph,
    kind: TaskKind,
    field: u16,
    task: u32,
    turns: u32,
    values: &[Val],
) -> bool
    ensures { result ≡ spec.takes_at graph.now kind field (slice_get graph.now.tasks task) turns values.now }
{
    match at(graph.tasks.as_slice(), task as usize) {
        Some(task) => is_field(graph, task, field) && takes(graph, kind, task, turns, values),
        None => false,
    }
}

/// Whether an instance is one of so many.
fn is_instance(width: u8, instance: u8) -> bool
    ensures { result ≡ spec.is_instance width instance }
{
    instance < width && width <= 64
}

/// Whether a key is of a slot of a field.
fn is_key_of(graph: &Graph, widths: &Widths, field: u16, slot: u8, key: Option<i64>) -> bool
    requires { AreWidths graph.now widths.now }
    ensures { result ≡ spec.is_key_of slot (width_of widths.now field) key }
{
    match (key, at(widths.as_slice(), usize::from(field))) {
        (Some(key), Some(width)) => slot_of(key, *width) == slot,
        (Some(key), None) => slot_of(key, 1) == slot,
        (None, _) => false,
    }
}

/// What the parts of a join task bring, which is the result of the access before its part.
fn brought(graph: &Graph, task: &Task) -> Option<ValueType>
    ensures { result ≡ spec.brought graph.now task.now }
{
    match at(graph.methods.as_slice(), usize::from(task.method)) {
        Some(method) if task.at >= 2 => {
            match at(method.code.as_slice(), task.at as usize - 2) {
                Some(Instr::Access(name, method)) => {
                    match signature_at(graph.fields.as_slice(), name.as_slice(), *method) {
                        Some(signature) => Some(signature.result),
                        None => None,
                    }
                }
                _ => None,
            }
        }
        _ => None,
    }
}

/// Whether an outcome, where it is a value, is of a type.
fn is_brought(expected: Option<ValueType>, how: &Outcome) -> bool
    ensures { result ≡ spec.is_brought expected how.now }
{
    match how {
        Outcome::Value(value) => is_type(expected, value),
        Outcome::Throws(_) | Outcome::Limit => true,
    }
}

/// Whether a join task takes a part with so many turns, these values and this outcome.
fn takes_part(graph: &Graph, task: u32, turns: u32, values: &[Val], how: &Outcome) -> bool
    ensures { result ≡ takes_part graph.now (slice_get graph.now.tasks task) turns values.now how.now }
{
    match at(graph.tasks.as_slice(), task as usize) {
        Some(task) => {
            takes(graph, TaskKind::Join, task, turns, values)
                && is_brought(brought(graph, task), how)
        }
        None => false,
    }
}

/// Whether the cell at a port takes an item: one that names a task of the port's kind and field, with
/// values of the types that the task needs. It takes no memory.
#[tactic(auto, unfolding(flat_code::specs::Fits::fits))]
pub fn item_fits(graph: &Graph, widths: &Widths, port: Port, item: &Item) -> bool
    requires { AreWidths graph.now widths.now }
    ensures { result ≡ fits graph.now widths.now port item.now }
{
    match (port, item) {
        (Port::Front, Item::Start { method, args, .. }) => starts(graph, *method, args.as_slice()),
        (
            Port::Slot { field, slot },
            Item::Work {
                task,
                key,
                turns,
                vars,
                ..
            },
        ) => {
            takes_at(
                graph,
                TaskKind::Keyed,
                field,
                *task,
                *turns,
                vars.as_slice(),
            ) && is_key_of(graph, widths, field, slot, *key)
        }
        (
            Port::Inst { field, .. },
            Item::Work {
                task,
                key,
                turns,
                vars,
                ..
            },
        ) => {
            takes_at(
                graph,
                TaskKind::Local,
                field,
                *task,
                *turns,
                vars.as_slice(),
            ) && key.is_none()
        }
        (
            Port::Inst { field, number },
            Item::Visit {
                task,
                width,
                turns,
                vars,
                ..
            },
        ) => {
            takes_at(
                graph,
                TaskKind::Visit,
                field,
                *task,
                *turns,
                vars.as_slice(),
            ) && is_instance(*width, number)
        }
        (
            Port::Join,
            Item::Part {
                task,
                width,
                instance,
                turns,
                vars,
                value,
                ..
            },
        ) => {
            is_instance(*width, *instance)
                && takes_part(graph, *task, *turns, vars.as_slice(), value)
        }
        _ => false,
    }
}
