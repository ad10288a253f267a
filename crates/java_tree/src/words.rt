//! The names that have a meaning of their own.

ghost use Rattle.std.specs.Prelude.{◌≡◌, codes};
ghost use Rattle.std.specs.Str.{bytes_eq};
ghost use Rattle.java_tree.specs.Words as spec;

use crate::tree::TypeName;
use crate::types::ValueType;
use sdg_base::ClassName;

/// Whether a name is this text.
pub fn is_text(name: &[u8], text: &[u8]) -> bool
    ensures { result ≡ bytes_eq name.now text.now }
{
    name == text
}

/// The class that holds state of this name.
pub fn state_class(name: &[u8]) -> Option<ClassName>
    ensures { result ≡ spec.state_class name.now }
{
    if is_text(name, b"Table") {
        Some(ClassName::Table)
    } else if is_text(name, b"Matrix") {
        Some(ClassName::Matrix)
    } else if is_text(name, b"Counter") {
        Some(ClassName::Counter)
    } else {
        None
    }
}

/// Whether a name is that of vectors.
pub fn is_vector_name(name: &[u8]) -> bool
    ensures { result ≡ spec.is_vector_name name.now }
{
    is_text(name, b"Vector")
}

/// Whether no declaration may have this name.
pub fn is_reserved(name: &[u8]) -> bool
    ensures { result ≡ spec.is_reserved name.now }
{
    state_class(name).is_some() || is_vector_name(name)
}

/// The type of a variable that is declared so.
pub fn value_type(name: &TypeName) -> Option<ValueType>
    ensures { result ≡ spec.value_type name.now }
{
    match name {
        TypeName::Int => Some(ValueType::Int),
        TypeName::Long => Some(ValueType::Long),
        TypeName::Boolean => Some(ValueType::Boolean),
        TypeName::Named(name) => {
            if is_vector_name(name.as_slice()) {
                Some(ValueType::Vector)
            } else {
                None
            }
        }
    }
}

/// Whether a type of this name is declared, in a class of the name `class_name`.
pub fn is_type(class_name: &[u8], name: &[u8]) -> bool
    ensures { result ≡ spec.is_type class_name.now name.now }
{
    is_reserved(name) || is_text(name, class_name)
}

/// The same of a type as it is written.
pub fn is_declared(class_name: &[u8], name: &TypeName) -> bool
    ensures { result ≡ spec.is_declared class_name.now name.now }
{
    match name {
        TypeName::Int | TypeName::Long | TypeName::Boolean => true,
        TypeName::Named(name) => is_type(class_name, name.as_slice()),
    }
}
