//! Reading the words of a graph file.

ghost use Rattle.std.specs.Prelude.{◌≡◌};
ghost use Rattle.serde_json.specs.View.{view};
ghost use Rattle.state_classes.specs.Methods.{method_text};
ghost use Rattle.graph_file.specs.Found.{Tells};
ghost use Rattle.graph_file.specs.Forms.{word_of, word_form};
ghost use Rattle.graph_file.specs.Writable.{IsFlatBin, IsFlatUn};
ghost use Rattle.graph_file.specs.Mnemonics.{mnemonic_word, mnemonics};
ghost use Rattle.graph_file.specs.Words.{class_word, classes, field_kind_word, field_kinds, method_kind_word, method_kinds, task_kind_word, task_kinds, operand_word, operand_types, num_word, nums, bin_word, bin_ops, un_word, un_ops, methods, variable_word, variable_types, result_word, result_types};

use crate::fault::Fault;
use crate::form::Form;
use crate::mnemonic::Mnemonic;
use crate::word::{Word, first_named};
use flat_code::{FieldKind, MethodKind, OperandType, TaskKind, VarType, VariableType};
use sdg_base::{BinOp, ClassName, Num, UnOp};
use serde_json::Value;
use state_classes::Method;
use std::alloc::Global;

/// What a word names; `None` where a value is no word or names nothing.
pub(crate) fn word_of<T: Word>(value: &Value) -> Option<T>
    ensures { result ≡ word_of T.word T.all (view value.now) }
{
    match value {
        Value::String(text) => first_named(T::all(), text.as_str()),
        _ => None,
    }
}

fn word<T: Word>(alloc: Global, value: &Value) -> Result<T, Fault>
    ensures { Tells (word_form T.word T.all (view value.now)) result }
{
    match word_of(value) {
        Some(thing) => Ok(thing),
        None => Err(Fault::here(alloc)),
    }
}

impl Form for ClassName {
    ghost form = { word_form class_word classes };

    ghost is_writable = { λ _. Unit {0} };

    fn read(alloc: Global, value: &Value) -> Result<ClassName, Fault> {
        word(alloc, value)
    }
}

impl Form for FieldKind {
    ghost form = { word_form field_kind_word field_kinds };

    ghost is_writable = { λ _. Unit {0} };

    fn read(alloc: Global, value: &Value) -> Result<FieldKind, Fault> {
        word(alloc, value)
    }
}

impl Form for MethodKind {
    ghost form = { word_form method_kind_word method_kinds };

    ghost is_writable = { λ _. Unit {0} };

    fn read(alloc: Global, value: &Value) -> Result<MethodKind, Fault> {
        word(alloc, value)
    }
}

impl Form for TaskKind {
    ghost form = { word_form task_kind_word task_kinds };

    ghost is_writable = { λ _. Unit {0} };

    fn read(alloc: Global, value: &Value) -> Result<TaskKind, Fault> {
        word(alloc, value)
    }
}

impl Form for Option<VarType> {
    ghost form = { word_form result_word result_types };

    ghost is_writable = { λ _. Unit {0} };

    fn read(alloc: Global, value: &Value) -> Result<Option<VarType>, Fault> {
        word(alloc, value)
    }
}

impl Form for VariableType {
    ghost form = { word_form variable_word variable_types };

    ghost is_writable = { λ _. Unit {0} };

    fn read(alloc: Global, value: &Value) -> Result<VariableType, Fault> {
        word(alloc, value)
    }
}

impl Form for OperandType {
    ghost form = { word_form operand_word operand_types };

    ghost is_writable = { λ _. Unit {0} };

    fn read(alloc: Global, value: &Value) -> Result<OperandType, Fault> {
        word(alloc, value)
    }
}

impl Form for Num {
    ghost form = { word_form num_word nums };

    ghost is_writable = { λ _. Unit {0} };

    fn read(alloc: Global, value: &Value) -> Result<Num, Fault> {
        word(alloc, value)
    }
}

impl Form for BinOp {
    ghost form = { word_form bin_word bin_ops };

    ghost is_writable = { IsFlatBin };

    fn read(alloc: Global, value: &Value) -> Result<BinOp, Fault> {
        word(alloc, value)
    }
}

impl Form for UnOp {
    ghost form = { word_form un_word un_ops };

    ghost is_writable = { IsFlatUn };

    fn read(alloc: Global, value: &Value) -> Result<UnOp, Fault> {
        word(alloc, value)
    }
}

impl Form for Method {
    ghost form = { word_form method_text methods };

    ghost is_writable = { λ _. Unit {0} };

    fn read(alloc: Global, value: &Value) -> Result<Method, Fault> {
        word(alloc, value)
    }
}

impl Form for Mnemonic {
    ghost form = { word_form mnemonic_word mnemonics };

    ghost is_writable = { λ _. Unit {0} };

    fn read(alloc: Global, value: &Value) -> Result<Mnemonic, Fault> {
        word(alloc, value)
    }
}
