//! Reading instructions: a word and its operands.

ghost use Rattle.std.specs.Prelude.{IfOk};
ghost use Rattle.serde_json.specs.View.{view, items_view};
ghost use Rattle.graph_file.specs.Found.{Tells};
ghost use Rattle.graph_file.specs.Forms.{none, one, bin_parts, bin_form, access_parts, access_form, operands_form, instr_form};
ghost use Rattle.graph_file.specs.Writable.{IsWritableInstr};

use crate::fault::Fault;
use crate::form::{Form, part};
use crate::mnemonic::Mnemonic;
use flat_code::Instr;
use serde_json::Value;
use std::alloc::Global;

impl Form for Instr {
    ghost form = { instr_form };

    ghost is_writable = { IsWritableInstr };

    fn read(alloc: Global, value: &Value) -> Result<Instr, Fault> {
        match value {
            Value::Array(list) => match list.as_slice() {
                [word, operands @ ..] => {
                    let mnemonic = part(alloc, word, "0")?;
                    with_operands(alloc, mnemonic, operands)
                }
                [] => Err(Fault::here(alloc)),
            },
            _ => Err(Fault::here(alloc)),
        }
    }
}

/// Reads the operands of an instruction.
fn with_operands(alloc: Global, mnemonic: Mnemonic, operands: &[Value]) -> Result<Instr, Fault>
    ensures told { Tells (operands_form mnemonic (items_view operands.now)) result }
    ensures made { IfOk result IsWritableInstr }
{
    match mnemonic {
        Mnemonic::Int => Ok(Instr::Int(one(alloc, operands)?)),
        Mnemonic::Long => Ok(Instr::Long(one(alloc, operands)?)),
        Mnemonic::Bool => Ok(Instr::Bool(one(alloc, operands)?)),
        Mnemonic::Bin => bin(alloc, operands),
        Mnemonic::Un => Ok(Instr::Un(one(alloc, operands)?)),
        Mnemonic::Cast => Ok(Instr::Cast(one(alloc, operands)?)),
        Mnemonic::Call => Ok(Instr::Call(one(alloc, operands)?)),
        Mnemonic::Access => access(alloc, operands),
        Mnemonic::Merge => Ok(Instr::Merge(one(alloc, operands)?)),
        Mnemonic::Alone(word) => none(alloc, operands, word.instr()),
        Mnemonic::Numbered(word) => Ok(word.instr(one(alloc, operands)?)),
    }
}

/// The instruction, where it has no operands.
fn none(alloc: Global, operands: &[Value], instr: Instr) -> Result<Instr, Fault>
    requires { IsWritableInstr instr }
    ensures told { Tells (none (items_view operands.now) instr) result }
    ensures made { IfOk result IsWritableInstr }
{
    match operands {
        [] => Ok(instr),
        _ => Err(Fault::here(alloc)),
    }
}

/// Reads the one operand of an instruction.
fn one<T: Form>(alloc: Global, operands: &[Value]) -> Result<T, Fault>
    ensures told { Tells (one T.form (items_view operands.now)) result }
    ensures made { IfOk result T.is_writable }
{
    match operands {
        [operand] => part(alloc, operand, "1"),
        _ => Err(Fault::here(alloc)),
    }
}

fn bin(alloc: Global, operands: &[Value]) -> Result<Instr, Fault>
    ensures told { Tells (bin_form (items_view operands.now)) result }
    ensures made { IfOk result IsWritableInstr }
{
    match operands {
        [op, operand_type] => bin_parts(alloc, op, operand_type),
        _ => Err(Fault::here(alloc)),
    }
}

fn bin_parts(alloc: Global, op: &Value, operand_type: &Value) -> Result<Instr, Fault>
    ensures told { Tells (bin_parts (view op.now) (view operand_type.now)) result }
    ensures made { IfOk result IsWritableInstr }
{
    let op = part(alloc, op, "1")?;
    let operand_type = part(alloc, operand_type, "2")?;
    Ok(Instr::Bin(op, operand_type))
}

fn access(alloc: Global, operands: &[Value]) -> Result<Instr, Fault>
    ensures told { Tells (access_form (items_view operands.now)) result }
    ensures made { IfOk result IsWritableInstr }
{
    match operands {
        [field, method] => access_parts(alloc, field, method),
        _ => Err(Fault::here(alloc)),
    }
}

fn access_parts(alloc: Global, field: &Value, method: &Value) -> Result<Instr, Fault>
    ensures told { Tells (access_parts (view field.now) (view method.now)) result }
    ensures made { IfOk result IsWritableInstr }
{
    let field = part(alloc, field, "1")?;
    let method = part(alloc, method, "2")?;
    Ok(Instr::Access(field, method))
}
