//! The flat code of methods.

ghost use Rattle.std.specs.Prelude.{◌≡◌, ◌∷◌, ◌++◌, ◌<◌, ◌≤◌, ◌^◌, [], ℕ, List, OnOk, IfOk, All, length, replicate};
ghost use Rattle.early_task_code.specs.declared.graph.VarType.TheVariants as var_type;
ghost use Rattle.early_forms.specs.Names.{variables};
ghost use Rattle.early_cutter.specs.Bounds.{SumFits, StatementFits, EndingFits, MethodFits};
ghost use Rattle.early_plain.specs.Keys.{written_key};
ghost use Rattle.early_cutter.specs.Points.{Point, number_in, point_at, point_with, point_after};
ghost use Rattle.early_cutter.specs.Scopes.{IsAt};
ghost use Rattle.early_cutter.specs.Lowering.{mark_code, argument_code, key_code, get_code, put_code, statement_code, ending_code, body_code, first_point, lowered, result_type, lowered_method, lowered_methods, task_at_end, task_behind, point_at_end};

use crate::point::{Here, declare, is_compound, next_number, scope_of, small};
use crate::sums::add_long;
use early_forms::{Ending, Statement, StraightMethod, Sum};
use early_plain::{Site, is_ended, is_same};
use early_tables::Method;
use early_task_code::{GraphMethod, Instr, MethodKind, VarType};
use sdg_base::Name;
use sqlite_items::Items;
use std::alloc::{AllocError, Global};

fn field_number(fields: &[Name], name: &Name) -> u16
    requires { length fields.now < 2 ^ 16 }
    ensures { result ≡ number_in fields.now name.now }
{
    for (number, field) in fields.iter().enumerate() {
        if field.as_slice() == name.as_slice() {
            return number as u16;
        }
    }
    fields.len() as u16
}

/// Adds the mark before an access, where one stands there.
fn add_mark<'a>(
    code: &mut Items<Instr>,
    here: &mut Here<'a>,
    field: &'a Name,
    key: &'a Sum,
) -> Result<(), AllocError>
    requires { SumFits key.now }
    ensures code { OnOk result ((p : Point) → IsAt here.old p → code.new ≡ code.old ++ mark_code p field.now key.now) }
    ensures point { OnOk result ((p : Point) → IsAt here.old p → IsAt here.new (point_at field.now key.now p)) }
    ensures scope { OnOk result (here.new.scope ≡ here.old.scope) }
{
    let site = Site { field, key };
    if !is_same(&here.site, &site) {
        let task = here.task;
        here.task = next_number(task)?;
        add_long(code, &here.scope, key)?;
        code.push(Instr::Turn)?;
        code.push(Instr::Cut(task))?;
    }
    here.site = Some(site);
    Ok(())
}

fn add_argument(code: &mut Items<Instr>, here: &Here, key: &Sum) -> Result<(), AllocError>
    requires { SumFits key.now }
    ensures { OnOk result ((p : Point) → IsAt here.now p → code.new ≡ code.old ++ argument_code (written_key key.now) p.scope key.now) }
{
    if is_compound(key) {
        return code.push(Instr::Key);
    }
    add_long(code, &here.scope, key)
}

/// Adds the code of a `get` up to its access, with its mark where one stands there.
fn add_get<'a>(
    code: &mut Items<Instr>,
    fields: &[Name],
    here: &mut Here<'a>,
    field: &'a Name,
    key: &'a Sum,
) -> Result<(), AllocError>
    requires fields { length fields.now < 2 ^ 16 }
    requires literals { SumFits key.now }
    ensures code { OnOk result ((p : Point) → IsAt here.old p → code.new ≡ code.old ++ get_code fields.now p field.now key.now) }
    ensures point { OnOk result ((p : Point) → IsAt here.old p → IsAt here.new (point_at field.now key.now p)) }
    ensures scope { OnOk result (here.new.scope ≡ here.old.scope) }
{
    add_mark(code, here, field, key)?;
    add_argument(code, here, key)?;
    code.push(Instr::Access(field_number(fields, field), Method::Get))?;
    Ok(())
}

fn add_put<'a>(
    code: &mut Items<Instr>,
    fields: &[Name],
    here: &mut Here<'a>,
    field: &'a Name,
    key: &'a Sum,
    value: &Sum,
) -> Result<(), AllocError>
    requires fields { length fields.now < 2 ^ 16 }
    requires key { SumFits key.now }
    requires value { SumFits value.now }
    ensures code { OnOk result ((p : Point) → IsAt here.old p → code.new ≡ code.old ++ put_code fields.now p field.now key.now value.now) }
    ensures point { OnOk result ((p : Point) → IsAt here.old p → IsAt here.new (point_at field.now key.now p)) }
{
    add_mark(code, here, field, key)?;
    add_argument(code, here, key)?;
    add_long(code, &here.scope, value)?;
    code.push(Instr::Access(field_number(fields, field), Method::Put))?;
    Ok(())
}

/// Stores the value on the stack as a new local.
fn add_store<'a>(
    code: &mut Items<Instr>,
    here: &mut Here<'a>,
    local: &'a Name,
) -> Result<(), AllocError>
    ensures code { OnOk result ((p : Point) → IsAt here.old p → code.new ≡ code.old ++ Instr.Store (length p.scope) ∷ []) }
    ensures point { OnOk result ((p : Point) → IsAt here.old p → IsAt here.new (point_with local.now p)) }
{
    code.push(Instr::Store(here.scope.count))?;
    if is_ended(&here.site, local) {
        here.site = None;
    }
    declare(&mut here.scope, local)
}

fn add_statement<'a>(
    code: &mut Items<Instr>,
    fields: &[Name],
    here: &mut Here<'a>,
    statement: &'a Statement,
) -> Result<(), AllocError>
    requires fields { length fields.now < 2 ^ 16 }
    requires literals { StatementFits statement.now }
    ensures code { OnOk result ((p : Point) → IsAt here.old p → code.new ≡ code.old ++ statement_code fields.now p statement.now) }
    ensures point { OnOk result ((p : Point) → IsAt here.old p → IsAt here.new (point_after statement.now p)) }
{
    match statement {
        Statement::Get { local, field, key } => {
            add_get(code, fields, here, field, key)?;
            add_store(code, here, local)?;
        }
        Statement::Set { local, value } => {
            add_long(code, &here.scope, value)?;
            add_store(code, here, local)?;
        }
        Statement::Put { field, key, value } => {
            add_put(code, fields, here, field, key, value)?;
        }
    }
    Ok(())
}

fn add_ending<'a>(
    code: &mut Items<Instr>,
    fields: &[Name],
    here: &mut Here<'a>,
    ending: &'a Ending,
) -> Result<(), AllocError>
    requires fields { length fields.now < 2 ^ 16 }
    requires literals { EndingFits ending.now }
    ensures code { OnOk result ((p : Point) → IsAt here.old p → code.new ≡ code.old ++ ending_code fields.now p ending.now) }
    ensures task { OnOk result ((p : Point) → IsAt here.old p → here.new.task ≡ task_at_end p ending.now) }
    ensures count { OnOk result (here.new.scope.count ≡ here.old.scope.count) }
{
    match ending {
        Ending::Nothing => code.push(Instr::ReturnVoid)?,
        Ending::Get { field, key } => {
            add_get(code, fields, here, field, key)?;
            code.push(Instr::Return)?;
        }
        Ending::Sum { value } => {
            add_long(code, &here.scope, value)?;
            code.push(Instr::Return)?;
        }
    }
    Ok(())
}

/// The code of a method, the number of its variables, and the first task behind its own.
struct FlatBody {
    code: Items<Instr>,
    count: u32,
    next: u32,
}

fn lowered(
    alloc: Global,
    fields: &[Name],
    start: u32,
    method: &StraightMethod,
) -> Result<FlatBody, AllocError>
    requires fields { length fields.now < 2 ^ 16 }
    requires literals { MethodFits method.now }
    ensures code { IfOk result (λ l. l.code ≡ lowered fields.now start method.now) }
    ensures count { IfOk result (λ l. l.count ≡ length (variables method.now)) }
    ensures next { IfOk result (λ l. l.next ≡ task_behind start method.now) }
{
    let scope = scope_of(alloc, method.parameters.as_slice())?;
    let task = next_number(start)?;
    let mut here = Here {
        scope,
        site: None,
        task,
    };
    let mut code = Items::new(alloc);
    let statements = method.statements.as_slice();
    for statement in statements {
        add_statement(&mut code, fields, &mut here, statement)?;
    }
    add_ending(&mut code, fields, &mut here, &method.ending)?;
    Ok(FlatBody {
        code,
        count: here.scope.count,
        next: here.task,
    })
}

fn result_type(ending: &Ending) -> Option<VarType>
    ensures { result ≡ result_type ending.now }
{
    match ending {
        Ending::Nothing => None,
        _ => Some(VarType::Long),
    }
}

fn long_vars(alloc: Global, count: u32) -> Result<Items<VarType>, AllocError>
    ensures { IfOk result (λ vars. vars ≡ replicate count var_type.Long) }
{
    let vars = vec![in alloc; VarType::Long; count as usize]?;
    Ok(Items::from_vec(vars))
}

/// A method, with the first task behind its own.
fn lowered_method(
    alloc: Global,
    fields: &[Name],
    start: u32,
    method: &StraightMethod,
) -> Result<(GraphMethod, u32), AllocError>
    requires fields { length fields.now < 2 ^ 16 }
    requires literals { MethodFits method.now }
    ensures method { IfOk result (λ r. r.0 ≡ lowered_method fields.now start method.now) }
    ensures next { IfOk result (λ r. r.1 ≡ task_behind start method.now) }
{
    let FlatBody { code, count, next } = lowered(alloc, fields, start, method)?;
    let name = Items::from_slice(alloc, method.name.as_slice())?;
    let params = small(method.parameters.len())?;
    let vars = long_vars(alloc, count)?;
    let method = GraphMethod {
        code,
        kind: MethodKind::Entry,
        name,
        params,
        result: result_type(&method.ending),
        vars,
    };
    Ok((method, next))
}

/// The methods as flat code. Their tasks are numbered through, in text order.
pub fn lowered_methods(
    alloc: Global,
    fields: &[Name],
    methods: &[StraightMethod],
) -> Result<Items<GraphMethod>, AllocError>
    requires fields { length fields.now < 2 ^ 16 }
    requires literals { All MethodFits methods.now }
    ensures { IfOk result (λ ms. ms ≡ lowered_methods fields.now 0 methods.now) }
{
    let mut flat = Items::new(alloc);
    let mut start = 0;
    for method in methods {
        let (method, next) = lowered_method(alloc, fields, start, method)?;
        flat.push(method)?;
        start = next;
    }
    Ok(flat)
}
