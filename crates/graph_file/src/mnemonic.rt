//! The words that instructions begin with.

ghost use Rattle.std.specs.Prelude.{◌≡◌};
ghost use Rattle.graph_file.specs.Mnemonics.{mnemonic_word, mnemonics, instr_alone, instr_with};
ghost use Rattle.graph_file.specs.Writable.{IsWritableInstr};

use crate::word::Word;
use flat_code::Instr;

/// The word of an instruction without operands.
#[derive(Clone, Copy)]
pub(crate) enum Alone {
    Pop,
    Turn,
    NewVector,
    Key,
    Return,
    ReturnVoid,
}

/// The word of an instruction with the number of a variable, an instruction or a task.
#[derive(Clone, Copy)]
pub(crate) enum Numbered {
    Load,
    Store,
    Jump,
    IfFalse,
    VectorSize,
    VectorGet,
    VectorSet,
    CollectionLength,
    CollectionItem,
    CollectionSize,
    CollectionCheck,
    CollectionGet,
    Cut,
    Part,
}

/// The word of an instruction.
#[derive(Clone, Copy)]
pub(crate) enum Mnemonic {
    Int,
    Long,
    Bool,
    Bin,
    Un,
    Cast,
    Call,
    Access,
    Merge,
    Alone(Alone),
    Numbered(Numbered),
}

impl Alone {
    /// Its instruction.
    pub(crate) fn instr(self) -> Instr
        ensures value { result ≡ instr_alone self }
        ensures writable { IsWritableInstr result }
    {
        match self {
            Alone::Pop => Instr::Pop,
            Alone::Turn => Instr::Turn,
            Alone::NewVector => Instr::NewVector,
            Alone::Key => Instr::Key,
            Alone::Return => Instr::Return,
            Alone::ReturnVoid => Instr::ReturnVoid,
        }
    }
}

impl Numbered {
    /// Its instruction with a number.
    pub(crate) fn instr(self, number: u32) -> Instr
        ensures value { result ≡ instr_with self number }
        ensures writable { IsWritableInstr result }
    {
        match self {
            Numbered::Load => Instr::Load(number),
            Numbered::Store => Instr::Store(number),
            Numbered::Jump => Instr::Jump(number),
            Numbered::IfFalse => Instr::IfFalse(number),
            Numbered::VectorSize => Instr::VectorSize(number),
            Numbered::VectorGet => Instr::VectorGet(number),
            Numbered::VectorSet => Instr::VectorSet(number),
            Numbered::CollectionLength => Instr::CollectionLength(number),
            Numbered::CollectionItem => Instr::CollectionItem(number),
            Numbered::CollectionSize => Instr::CollectionSize(number),
            Numbered::CollectionCheck => Instr::CollectionCheck(number),
            Numbered::CollectionGet => Instr::CollectionGet(number),
            Numbered::Cut => Instr::Cut(number),
            Numbered::Part => Instr::Part(number),
        }
    }
}

impl Word for Mnemonic {
    ghost word = { mnemonic_word };

    ghost all = { mnemonics };

    fn text(self) -> &'static str {
        match self {
            Mnemonic::Int => "int",
            Mnemonic::Long => "long",
            Mnemonic::Bool => "bool",
            Mnemonic::Bin => "bin",
            Mnemonic::Un => "un",
            Mnemonic::Cast => "cast",
            Mnemonic::Call => "call",
            Mnemonic::Access => "access",
            Mnemonic::Merge => "merge",
            Mnemonic::Alone(Alone::Pop) => "pop",
            Mnemonic::Alone(Alone::Turn) => "turn",
            Mnemonic::Alone(Alone::NewVector) => "newvector",
            Mnemonic::Alone(Alone::Key) => "key",
            Mnemonic::Alone(Alone::Return) => "return",
            Mnemonic::Alone(Alone::ReturnVoid) => "returnvoid",
            Mnemonic::Numbered(Numbered::Load) => "load",
            Mnemonic::Numbered(Numbered::Store) => "store",
            Mnemonic::Numbered(Numbered::Jump) => "jump",
            Mnemonic::Numbered(Numbered::IfFalse) => "iffalse",
            Mnemonic::Numbered(Numbered::VectorSize) => "vsize",
            Mnemonic::Numbered(Numbered::VectorGet) => "vget",
            Mnemonic::Numbered(Numbered::VectorSet) => "vset",
            Mnemonic::Numbered(Numbered::CollectionLength) => "clen",
            Mnemonic::Numbered(Numbered::CollectionItem) => "citem",
            Mnemonic::Numbered(Numbered::CollectionSize) => "csize",
            Mnemonic::Numbered(Numbered::CollectionCheck) => "ccheck",
            Mnemonic::Numbered(Numbered::CollectionGet) => "cget",
            Mnemonic::Numbered(Numbered::Cut) => "cut",
            Mnemonic::Numbered(Numbered::Part) => "part",
        }
    }

    fn all() -> &'static [Mnemonic] {
        &[
            Mnemonic::Int,
            Mnemonic::Long,
            Mnemonic::Bool,
            Mnemonic::Bin,
            Mnemonic::Un,
            Mnemonic::Cast,
            Mnemonic::Call,
            Mnemonic::Access,
            Mnemonic::Merge,
            Mnemonic::Alone(Alone::Pop),
            Mnemonic::Alone(Alone::Turn),
            Mnemonic::Alone(Alone::NewVector),
            Mnemonic::Alone(Alone::Key),
            Mnemonic::Alone(Alone::Return),
            Mnemonic::Alone(Alone::ReturnVoid),
            Mnemonic::Numbered(Numbered::Load),
            Mnemonic::Numbered(Numbered::Store),
            Mnemonic::Numbered(Numbered::Jump),
            Mnemonic::Numbered(Numbered::IfFalse),
            Mnemonic::Numbered(Numbered::VectorSize),
            Mnemonic::Numbered(Numbered::VectorGet),
            Mnemonic::Numbered(Numbered::VectorSet),
            Mnemonic::Numbered(Numbered::CollectionLength),
            Mnemonic::Numbered(Numbered::CollectionItem),
            Mnemonic::Numbered(Numbered::CollectionSize),
            Mnemonic::Numbered(Numbered::CollectionCheck),
            Mnemonic::Numbered(Numbered::CollectionGet),
            Mnemonic::Numbered(Numbered::Cut),
            Mnemonic::Numbered(Numbered::Part),
        ]
    }
}
