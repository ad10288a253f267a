//! The words of a graph file.

ghost use Rattle.std.specs.Prelude.{◌≡◌, ℕ, List};
ghost use Rattle.state_classes.specs.Methods.{method_text};
ghost use Rattle.graph_file.specs.Words.{first_named, class_word, classes, field_kind_word, field_kinds, method_kind_word, method_kinds, task_kind_word, task_kinds, operand_word, operand_types, num_word, nums, bin_word, bin_ops, un_word, un_ops, methods, variable_word, variable_types, result_word, result_types};

use flat_code::{FieldKind, MethodKind, OperandType, TaskKind, VarType, VariableType};
use sdg_base::{BinOp, ClassName, Num, UnOp};
use state_classes::Method;

/// What a graph file names by a word.
pub(crate) trait Word: Copy + 'static {
    ghost word: { Self → List ℕ };

    ghost all: { List Self };

    /// The letters of the word.
    fn text(self) -> &'static str
        ensures { result.now ≡ word self };

    /// All that a file may name so.
    fn all() -> &'static [Self]
        ensures { result.now ≡ all };
}

/// The first of some things with a word.
pub(crate) fn first_named<T: Word>(things: &[T], text: &str) -> Option<T>
    ensures { result ≡ first_named T.word text.now things.now }
{
    match things {
        [] => None,
        [thing, others @ ..] => {
            if text == thing.text() {
                Some(*thing)
            } else {
                first_named(others, text)
            }
        }
    }
}

impl Word for ClassName {
    ghost word = { class_word };

    ghost all = { classes };

    fn text(self) -> &'static str {
        match self {
            ClassName::Table => "Table",
            ClassName::Matrix => "Matrix",
            ClassName::Counter => "Counter",
        }
    }

    fn all() -> &'static [ClassName] {
        &[ClassName::Table, ClassName::Matrix, ClassName::Counter]
    }
}

impl Word for FieldKind {
    ghost word = { field_kind_word };

    ghost all = { field_kinds };

    fn text(self) -> &'static str {
        match self {
            FieldKind::Partitioned => "partitioned",
            FieldKind::Partial => "partial",
        }
    }

    fn all() -> &'static [FieldKind] {
        &[FieldKind::Partitioned, FieldKind::Partial]
    }
}

impl Word for MethodKind {
    ghost word = { method_kind_word };

    ghost all = { method_kinds };

    fn text(self) -> &'static str {
        match self {
            MethodKind::Entry => "entry",
            MethodKind::Helper => "helper",
            MethodKind::Merge => "merge",
        }
    }

    fn all() -> &'static [MethodKind] {
        &[MethodKind::Entry, MethodKind::Helper, MethodKind::Merge]
    }
}

impl Word for TaskKind {
    ghost word = { task_kind_word };

    ghost all = { task_kinds };

    fn text(self) -> &'static str {
        match self {
            TaskKind::Start => "start",
            TaskKind::Keyed => "keyed",
            TaskKind::Local => "local",
            TaskKind::Visit => "visit",
            TaskKind::Join => "join",
        }
    }

    fn all() -> &'static [TaskKind] {
        &[
            TaskKind::Start,
            TaskKind::Keyed,
            TaskKind::Local,
            TaskKind::Visit,
            TaskKind::Join,
        ]
    }
}

impl Word for OperandType {
    ghost word = { operand_word };

    ghost all = { operand_types };

    fn text(self) -> &'static str {
        match self {
            OperandType::Int => "int",
            OperandType::Long => "long",
            OperandType::Boolean => "boolean",
        }
    }

    fn all() -> &'static [OperandType] {
        &[OperandType::Int, OperandType::Long, OperandType::Boolean]
    }
}

impl Word for Num {
    ghost word = { num_word };

    ghost all = { nums };

    fn text(self) -> &'static str {
        match self {
            Num::Int => "int",
            Num::Long => "long",
        }
    }

    fn all() -> &'static [Num] {
        &[Num::Int, Num::Long]
    }
}

impl Word for BinOp {
    ghost word = { bin_word };

    ghost all = { bin_ops };

    fn text(self) -> &'static str {
        match self {
            BinOp::Mul => "*",
            BinOp::Div => "/",
            BinOp::Rem => "%",
            BinOp::Add => "+",
            BinOp::Sub => "-",
            BinOp::Shl => "<<",
            BinOp::Shr => ">>",
            BinOp::UShr => ">>>",
            BinOp::Lt => "<",
            BinOp::Le => "<=",
            BinOp::Gt => ">",
            BinOp::Ge => ">=",
            BinOp::Eq => "==",
            BinOp::Ne => "!=",
            BinOp::And => "&",
            BinOp::Xor => "^",
            BinOp::Or => "|",
            BinOp::AndAlso => "&&",
            BinOp::OrElse => "||",
        }
    }

    fn all() -> &'static [BinOp] {
        &[
            BinOp::Mul,
            BinOp::Div,
            BinOp::Rem,
            BinOp::Add,
            BinOp::Sub,
            BinOp::Shl,
            BinOp::Shr,
            BinOp::UShr,
            BinOp::Lt,
            BinOp::Le,
            BinOp::Gt,
            BinOp::Ge,
            BinOp::Eq,
            BinOp::Ne,
            BinOp::And,
            BinOp::Xor,
            BinOp::Or,
        ]
    }
}

impl Word for UnOp {
    ghost word = { un_word };

    ghost all = { un_ops };

    fn text(self) -> &'static str {
        match self {
            UnOp::Plus => "+",
            UnOp::Minus => "-",
            UnOp::Complement => "~",
            UnOp::Not => "!",
        }
    }

    fn all() -> &'static [UnOp] {
        &[UnOp::Minus, UnOp::Complement, UnOp::Not]
    }
}

impl Word for Method {
    ghost word = { method_text };

    ghost all = { methods };

    fn text(self) -> &'static str {
        Method::text(self)
    }

    fn all() -> &'static [Method] {
        &[
            Method::Get,
            Method::Has,
            Method::Put,
            Method::Add,
            Method::Remove,
            Method::Size,
            Method::GetElement,
            Method::SetElement,
            Method::AddElement,
            Method::GetRow,
            Method::Multiply,
            Method::Set,
        ]
    }
}

impl Word for VariableType {
    ghost word = { variable_word };

    ghost all = { variable_types };

    fn text(self) -> &'static str {
        match self {
            VariableType::One(VarType::Int) => "int",
            VariableType::One(VarType::Long) => "long",
            VariableType::One(VarType::Boolean) => "boolean",
            VariableType::One(VarType::Vector) => "Vector",
            VariableType::Collection(VarType::Int) => "int[]",
            VariableType::Collection(VarType::Long) => "long[]",
            VariableType::Collection(VarType::Boolean) => "boolean[]",
            VariableType::Collection(VarType::Vector) => "Vector[]",
        }
    }

    fn all() -> &'static [VariableType] {
        &[
            VariableType::One(VarType::Int),
            VariableType::One(VarType::Long),
            VariableType::One(VarType::Boolean),
            VariableType::One(VarType::Vector),
            VariableType::Collection(VarType::Int),
            VariableType::Collection(VarType::Long),
            VariableType::Collection(VarType::Boolean),
            VariableType::Collection(VarType::Vector),
        ]
    }
}

impl Word for Option<VarType> {
    ghost word = { result_word };

    ghost all = { result_types };

    fn text(self) -> &'static str {
        match self {
            None => "void",
            Some(one) => VariableType::One(one).text(),
        }
    }

    fn all() -> &'static [Option<VarType>] {
        &[
            None,
            Some(VarType::Int),
            Some(VarType::Long),
            Some(VarType::Boolean),
            Some(VarType::Vector),
        ]
    }
}
