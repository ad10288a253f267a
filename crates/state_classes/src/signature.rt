//! The signatures of the methods of the classes that hold state, and of `Vector`.

ghost use Rattle.std.specs.Prelude.{◌≡◌, ◌∷◌, Some};
ghost use Rattle.std.specs.Option.{option_map};
ghost use Rattle.sdg_base.specs.Signatures.{state_method, vector_method, named, table_methods, matrix_methods, counter_methods, keyed, unkeyed};
ghost use Rattle.state_classes.specs.Shown.{signature_of};

use sdg_base::{ClassName, ValueType};

/// What a method takes and gives, `Void` where it gives nothing, and whether its first argument is
/// the key, or the row, that chooses a part of a partitioned field.
#[derive(Clone, Copy)]
pub struct Signature {
    pub arguments: &'static [ValueType],
    pub result: ValueType,
    pub keyed: bool,
}

/// The method of a name of a class that holds state; `None` where it has none of this name.
pub fn state_method(class: ClassName, name: &[u8]) -> Option<Signature>
    ensures { option_map signature_of result ≡ state_method class name.now }
{
    match class {
        ClassName::Table => table_method(name),
        ClassName::Matrix => matrix_method(name),
        ClassName::Counter => counter_method(name),
    }
}

/// The method of a name of `Vector`; `None` where it has none of this name.
pub fn vector_method(name: &[u8]) -> Option<Signature>
    ensures { option_map signature_of result ≡ vector_method name.now }
{
    if name == b"size".as_slice() {
        unkeyed(&[], ValueType::Int)
    } else if name == b"get".as_slice() {
        unkeyed(&[ValueType::Int], ValueType::Long)
    } else if name == b"set".as_slice() {
        unkeyed(&[ValueType::Int, ValueType::Long], ValueType::Void)
    } else {
        None
    }
}

fn table_method(name: &[u8]) -> Option<Signature>
    ensures { option_map signature_of result ≡ named name.now table_methods }
{
    if name == b"get".as_slice() {
        keyed(&[ValueType::Long], ValueType::Long)
    } else if name == b"has".as_slice() {
        keyed(&[ValueType::Long], ValueType::Boolean)
    } else if name == b"put".as_slice() || name == b"add".as_slice() {
        keyed(&[ValueType::Long, ValueType::Long], ValueType::Void)
    } else if name == b"remove".as_slice() {
        keyed(&[ValueType::Long], ValueType::Void)
    } else if name == b"size".as_slice() {
        unkeyed(&[], ValueType::Long)
    } else {
        None
    }
}

fn matrix_method(name: &[u8]) -> Option<Signature>
    ensures { option_map signature_of result ≡ named name.now matrix_methods }
{
    if name == b"getElement".as_slice() {
        keyed(&[ValueType::Long, ValueType::Long], ValueType::Long)
    } else if name == b"setElement".as_slice() || name == b"addElement".as_slice() {
        keyed(
            &[ValueType::Long, ValueType::Long, ValueType::Long],
            ValueType::Void,
        )
    } else if name == b"getRow".as_slice() {
        keyed(&[ValueType::Long, ValueType::Int], ValueType::Vector)
    } else if name == b"multiply".as_slice() {
        unkeyed(&[ValueType::Vector], ValueType::Vector)
    } else if name == b"size".as_slice() {
        unkeyed(&[], ValueType::Long)
    } else {
        None
    }
}

fn counter_method(name: &[u8]) -> Option<Signature>
    ensures { option_map signature_of result ≡ named name.now counter_methods }
{
    if name == b"get".as_slice() {
        unkeyed(&[], ValueType::Long)
    } else if name == b"add".as_slice() || name == b"set".as_slice() {
        unkeyed(&[ValueType::Long], ValueType::Void)
    } else {
        None
    }
}

fn keyed(arguments: &'static [ValueType], gives: ValueType) -> Option<Signature>
    ensures { option_map signature_of result ≡ Some (keyed arguments.now gives) }
{
    Some(Signature {
        arguments,
        result: gives,
        keyed: true,
    })
}

fn unkeyed(arguments: &'static [ValueType], gives: ValueType) -> Option<Signature>
    ensures { option_map signature_of result ≡ Some (unkeyed arguments.now gives) }
{
    Some(Signature {
        arguments,
        result: gives,
        keyed: false,
    })
}
