//! Reading a graph: its fields, methods and tasks.

ghost use Rattle.std.specs.Prelude.{◌≡◌, Option, option_map, is_some, IfOk, IsTrue};
ghost use Rattle.serde_json.specs.View.{view};
ghost use Rattle.graph_file.specs.Found.{Tells};
ghost use Rattle.graph_file.specs.Forms.{count, field_parts, field_form, method_members, method_form, has_field, suits, task_field, task_members, task_parts, task_form, graph_members, graph_form, versioned, word_of};
ghost use Rattle.graph_file.specs.Words.{task_kind_word, task_kinds};
ghost use Rattle.graph_file.specs.Writable.{IsNamed, IsWritableMethod, IsWritableTask, IsWritable};
ghost use Rattle.std.specs.Str.{IsUtf8};

use crate::fault::Fault;
use crate::form::{Form, part};
use crate::word_form::word_of;
use flat_code::{Graph, GraphField, GraphMethod, Task, TaskKind};
use sdg_base::Name;
use serde_json::Value;
use std::alloc::Global;

impl Form for GraphField {
    ghost form = { field_form };

    ghost is_writable = { λ f. IsUtf8 f.name };

    fn read(alloc: Global, value: &Value) -> Result<GraphField, Fault> {
        match value {
            Value::Array(list) => match list.as_slice() {
                [name, class, kind] => field(alloc, name, class, kind),
                _ => Err(Fault::here(alloc)),
            },
            _ => Err(Fault::here(alloc)),
        }
    }
}

fn field(alloc: Global, name: &Value, class: &Value, kind: &Value) -> Result<GraphField, Fault>
    ensures told { Tells (field_parts (view name.now) (view class.now) (view kind.now)) result }
    ensures made { IfOk result (λ f. IsUtf8 f.name) }
{
    let name = part(alloc, name, "0")?;
    let class = part(alloc, class, "1")?;
    let kind = part(alloc, kind, "2")?;
    Ok(GraphField { name, class, kind })
}

/// How many members an object has.
fn count(value: &Value) -> usize
    ensures { result ≡ count (view value.now) }
{
    match value {
        Value::Object(members) => members.len(),
        _ => 0,
    }
}

impl Form for GraphMethod {
    ghost form = { method_form };

    ghost is_writable = { IsWritableMethod };

    fn read(alloc: Global, value: &Value) -> Result<GraphMethod, Fault> {
        if count(value) != 6 {
            return Err(Fault::here(alloc));
        }
        let Some(code) = value.get("code") else {
            return Err(Fault::here(alloc));
        };
        let Some(kind) = value.get("kind") else {
            return Err(Fault::here(alloc));
        };
        let Some(name) = value.get("name") else {
            return Err(Fault::here(alloc));
        };
        let Some(params) = value.get("params") else {
            return Err(Fault::here(alloc));
        };
        let Some(returned) = value.get("result") else {
            return Err(Fault::here(alloc));
        };
        let Some(vars) = value.get("vars") else {
            return Err(Fault::here(alloc));
        };
        method(alloc, code, kind, name, params, returned, vars)
    }
}

fn method(
    alloc: Global,
    code: &Value,
    kind: &Value,
    name: &Value,
    params: &Value,
    returned: &Value,
    vars: &Value,
) -> Result<GraphMethod, Fault>
    ensures told { Tells (method_members (view code.now) (view kind.now) (view name.now) (view params.now)
        (view returned.now) (view vars.now)) result }
    ensures made { IfOk result IsWritableMethod }
{
    let code = part(alloc, code, "code")?;
    let kind = part(alloc, kind, "kind")?;
    let name = part(alloc, name, "name")?;
    let params = part(alloc, params, "params")?;
    let returned = part(alloc, returned, "result")?;
    let vars = part(alloc, vars, "vars")?;
    Ok(GraphMethod {
        code,
        kind,
        name,
        params,
        result: returned,
        vars,
    })
}

fn has_field(kind: TaskKind) -> bool
    ensures { result ≡ has_field kind }
{
    matches!(kind, TaskKind::Keyed | TaskKind::Local | TaskKind::Visit)
}

/// Whether a task's kind, if it is known, has a field exactly where there is one.
fn suits(kind: Option<TaskKind>, is_there: bool) -> bool
    ensures { result ≡ suits kind is_there }
{
    match kind {
        None => true,
        Some(kind) => has_field(kind) == is_there,
    }
}

impl Form for Task {
    ghost form = { task_form };

    ghost is_writable = { IsWritableTask };

    fn read(alloc: Global, value: &Value) -> Result<Task, Fault> {
        let field = value.get("field");
        let members = if field.is_some() { 5 } else { 4 };
        if count(value) != members {
            return Err(Fault::here(alloc));
        }
        let Some(at) = value.get("at") else {
            return Err(Fault::here(alloc));
        };
        let Some(kind) = value.get("kind") else {
            return Err(Fault::here(alloc));
        };
        let Some(method) = value.get("method") else {
            return Err(Fault::here(alloc));
        };
        let Some(vars) = value.get("vars") else {
            return Err(Fault::here(alloc));
        };
        if !suits(word_of(kind), field.is_some()) {
            return Err(Fault::here(alloc));
        }
        task(alloc, at, field, kind, method, vars)
    }
}

fn task_field(alloc: Global, field: Option<&Value>) -> Result<Option<Name>, Fault>
    ensures told { Tells (task_field (option_map (λ v. view v.now) field.entry)) result }
    ensures named { IfOk result IsNamed }
    ensures there { IfOk result (λ name. is_some name ≡ is_some field.entry) }
{
    match field {
        None => Ok(None),
        Some(field) => Ok(Some(part(alloc, field, "field")?)),
    }
}

fn task(
    alloc: Global,
    at: &Value,
    field: Option<&Value>,
    kind: &Value,
    method: &Value,
    vars: &Value,
) -> Result<Task, Fault>
    requires { IsTrue (suits (word_of task_kind_word task_kinds (view kind.now)) (is_some field)) }
    ensures told { Tells (task_members (view at.now) (option_map (λ v. view v.now) field.entry)
        (view kind.now) (view method.now) (view vars.now)) result }
    ensures made { IfOk result IsWritableTask }
{
    let at = part(alloc, at, "at")?;
    let field = task_field(alloc, field)?;
    let kind = part(alloc, kind, "kind")?;
    let method = part(alloc, method, "method")?;
    let vars = part(alloc, vars, "vars")?;
    Ok(Task {
        at,
        field,
        kind,
        method,
        vars,
    })
}

impl Form for Graph {
    ghost form = { graph_form };

    ghost is_writable = { IsWritable };

    fn read(alloc: Global, value: &Value) -> Result<Graph, Fault> {
        if count(value) != 5 {
            return Err(Fault::here(alloc));
        }
        let Some(class) = value.get("class") else {
            return Err(Fault::here(alloc));
        };
        let Some(fields) = value.get("fields") else {
            return Err(Fault::here(alloc));
        };
        let Some(methods) = value.get("methods") else {
            return Err(Fault::here(alloc));
        };
        let Some(tasks) = value.get("tasks") else {
            return Err(Fault::here(alloc));
        };
        let Some(version) = value.get("version") else {
            return Err(Fault::here(alloc));
        };
        graph(alloc, class, fields, methods, tasks, version)
    }
}

fn graph(
    alloc: Global,
    class: &Value,
    fields: &Value,
    methods: &Value,
    tasks: &Value,
    version: &Value,
) -> Result<Graph, Fault>
    ensures told { Tells (graph_members (view class.now) (view fields.now) (view methods.now)
        (view tasks.now) (view version.now)) result }
    ensures made { IfOk result IsWritable }
{
    let class = part(alloc, class, "class")?;
    let fields = part(alloc, fields, "fields")?;
    let methods = part(alloc, methods, "methods")?;
    let tasks = part(alloc, tasks, "tasks")?;
    let graph = Graph {
        class,
        fields,
        methods,
        tasks,
    };
    versioned(alloc, version, graph)
}

/// The graph, where the version of its file is 1.
fn versioned(alloc: Global, version: &Value, graph: Graph) -> Result<Graph, Fault>
    requires { IsWritable graph }
    ensures told { Tells (versioned (view version.now) graph) result }
    ensures made { IfOk result IsWritable }
{
    match version.as_u64() {
        Some(1) => Ok(graph),
        _ => Err(Fault::here(alloc).under(alloc, "version")),
    }
}
