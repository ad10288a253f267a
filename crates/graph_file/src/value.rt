//! A graph as a JSON value, part by part.

ghost use Rattle.std.specs.Prelude.{◌≡◌, IfOk};
ghost use Rattle.serde_json.specs.Data.{Data, string};
ghost use Rattle.serde_json.specs.View.{view};
ghost use Rattle.graph_file.specs.Written.{name_data, number_data, list_data, field_data, alone, with_data, with_two, instr_data, variable_data, method_data, task_data, graph_data};

use crate::word::Word;
use flat_code::{Graph, GraphField, GraphMethod, Instr, Task, VariableType};
use sdg_base::Name;
use serde_json::{Value, json};
use std::alloc::{AllocError, Global};

/// What a graph file has a list of.
pub(crate) trait Written {
    ghost shown: { Self → Data };

    /// What stands for it in the file.
    fn value(&self, alloc: Global) -> Result<Value, AllocError>
        ensures { IfOk result (λ v. view v ≡ shown self.now) };
}

/// Some things, each as what stands for it.
fn list_value<T: Written>(alloc: Global, things: &[T]) -> Result<Value, AllocError>
    ensures { IfOk result (λ v. view v ≡ list_data T.shown things.now) }
{
    let mut list = Vec::new(alloc);
    for thing in things {
        list.push(thing.value(alloc)?)?;
    }
    Ok(Value::Array(list))
}

/// A name as text, with U+FFFD for what is not UTF-8 in it.
fn name_value(alloc: Global, name: &Name) -> Result<Value, AllocError>
    ensures { IfOk result (λ v. view v ≡ name_data name.now) }
{
    let text = String::from_utf8_lossy(alloc, name.as_slice())?;
    Ok(Value::String(text))
}

impl Written for u32 {
    ghost shown = { number_data };

    fn value(&self, _alloc: Global) -> Result<Value, AllocError> {
        Ok(Value::from(*self))
    }
}

impl Written for VariableType {
    ghost shown = { variable_data };

    fn value(&self, alloc: Global) -> Result<Value, AllocError> {
        Value::try_from_str(alloc, self.text())
    }
}

impl Written for GraphField {
    ghost shown = { field_data };

    fn value(&self, alloc: Global) -> Result<Value, AllocError> {
        let name = name_value(alloc, &self.name)?;
        json!(in alloc; [name, self.class.text(), self.kind.text()])
    }
}

/// An instruction without operands.
fn alone(alloc: Global, word: &str) -> Result<Value, AllocError>
    ensures { IfOk result (λ v. view v ≡ alone word.now) }
{
    json!(in alloc; [word])
}

/// An instruction with one operand.
fn with_data(alloc: Global, word: &str, operand: Value) -> Result<Value, AllocError>
    ensures { IfOk result (λ v. view v ≡ with_data word.now (view operand)) }
{
    json!(in alloc; [word, operand])
}

/// An instruction with two operands.
fn with_two(alloc: Global, word: &str, first: Value, second: &str) -> Result<Value, AllocError>
    ensures { IfOk result (λ v. view v ≡ with_two word.now (view first) (string second.now)) }
{
    json!(in alloc; [word, first, second])
}

/// An instruction with a number.
fn with_number(alloc: Global, word: &str, number: u32) -> Result<Value, AllocError>
    ensures { IfOk result (λ v. view v ≡ with_data word.now (number_data number)) }
{
    with_data(alloc, word, Value::from(number))
}

/// An instruction with a word.
fn with_word(alloc: Global, word: &str, operand: &str) -> Result<Value, AllocError>
    ensures { IfOk result (λ v. view v ≡ with_data word.now (string operand.now)) }
{
    json!(in alloc; [word, operand])
}

impl Written for Instr {
    ghost shown = { instr_data };

    fn value(&self, alloc: Global) -> Result<Value, AllocError> {
        match self {
            Instr::Int(n) => with_data(alloc, "int", Value::from(*n)),
            Instr::Long(n) => with_data(alloc, "long", Value::from(*n)),
            Instr::Bool(b) => with_data(alloc, "bool", Value::from(*b)),
            Instr::Load(v) => with_number(alloc, "load", *v),
            Instr::Store(v) => with_number(alloc, "store", *v),
            Instr::Pop => alone(alloc, "pop"),
            Instr::Bin(op, t) => {
                let word = Value::try_from_str(alloc, op.text())?;
                with_two(alloc, "bin", word, t.text())
            }
            Instr::Un(op) => with_word(alloc, "un", op.text()),
            Instr::Cast(t) => with_word(alloc, "cast", t.text()),
            Instr::Jump(i) => with_number(alloc, "jump", *i),
            Instr::IfFalse(i) => with_number(alloc, "iffalse", *i),
            Instr::Turn => alone(alloc, "turn"),
            Instr::NewVector => alone(alloc, "newvector"),
            Instr::VectorSize(v) => with_number(alloc, "vsize", *v),
            Instr::VectorGet(v) => with_number(alloc, "vget", *v),
            Instr::VectorSet(v) => with_number(alloc, "vset", *v),
            Instr::CollectionLength(v) => with_number(alloc, "clen", *v),
            Instr::CollectionItem(v) => with_number(alloc, "citem", *v),
            Instr::CollectionSize(v) => with_number(alloc, "csize", *v),
            Instr::CollectionCheck(v) => with_number(alloc, "ccheck", *v),
            Instr::CollectionGet(v) => with_number(alloc, "cget", *v),
            Instr::Call(m) => with_number(alloc, "call", u32::from(*m)),
            Instr::Key => alone(alloc, "key"),
            Instr::Access(field, method) => {
                let name = name_value(alloc, field)?;
                with_two(alloc, "access", name, Word::text(*method))
            }
            Instr::Cut(t) => with_number(alloc, "cut", *t),
            Instr::Part(t) => with_number(alloc, "part", *t),
            Instr::Merge(m) => with_number(alloc, "merge", u32::from(*m)),
            Instr::Return => alone(alloc, "return"),
            Instr::ReturnVoid => alone(alloc, "returnvoid"),
        }
    }
}

impl Written for GraphMethod {
    ghost shown = { method_data };

    fn value(&self, alloc: Global) -> Result<Value, AllocError> {
        let code = list_value(alloc, self.code.as_slice())?;
        let name = name_value(alloc, &self.name)?;
        let vars = list_value(alloc, self.vars.as_slice())?;
        json!(in alloc; {
            "code": code,
            "kind": self.kind.text(),
            "name": name,
            "params": self.params,
            "result": self.result.text(),
            "vars": vars
        })
    }
}

impl Written for Task {
    ghost shown = { task_data };

    fn value(&self, alloc: Global) -> Result<Value, AllocError> {
        let vars = list_value(alloc, self.vars.as_slice())?;
        match &self.field {
            None => json!(in alloc; {
                "at": self.at,
                "kind": self.kind.text(),
                "method": self.method,
                "vars": vars
            }),
            Some(field) => {
                let name = name_value(alloc, field)?;
                json!(in alloc; {
                    "at": self.at,
                    "field": name,
                    "kind": self.kind.text(),
                    "method": self.method,
                    "vars": vars
                })
            }
        }
    }
}

/// A graph as JSON.
pub(crate) fn graph_value(alloc: Global, graph: &Graph) -> Result<Value, AllocError>
    ensures { IfOk result (λ v. view v ≡ graph_data graph.now) }
{
    let class = name_value(alloc, &graph.class)?;
    let fields = list_value(alloc, graph.fields.as_slice())?;
    let methods = list_value(alloc, graph.methods.as_slice())?;
    let tasks = list_value(alloc, graph.tasks.as_slice())?;
    json!(in alloc; {
        "class": class,
        "fields": fields,
        "methods": methods,
        "tasks": tasks,
        "version": 1_u32
    })
}
