//! The methods of the classes that hold state, by their names.

ghost use Rattle.std.specs.Prelude.{◌≡◌};
ghost use Rattle.state_classes.specs.Methods.{method_text, methods_of, method_named, is_keyed, named};

use sdg_base::ClassName;

/// A method of a class that holds state, by its name. Classes that have a method of one name share
/// its variant.
#[derive(Clone, Copy, Debug, PartialEq, Eq)]
pub enum Method {
    Get,
    Has,
    Put,
    Add,
    Remove,
    Size,
    GetElement,
    SetElement,
    AddElement,
    GetRow,
    Multiply,
    Set,
}

impl Method {
    /// The letters of its name.
    pub fn text(self) -> &'static str
        ensures { result.now ≡ method_text self }
    {
        match self {
            Method::Get => "get",
            Method::Has => "has",
            Method::Put => "put",
            Method::Add => "add",
            Method::Remove => "remove",
            Method::Size => "size",
            Method::GetElement => "getElement",
            Method::SetElement => "setElement",
            Method::AddElement => "addElement",
            Method::GetRow => "getRow",
            Method::Multiply => "multiply",
            Method::Set => "set",
        }
    }
}

/// The method of a name of a class that holds state; `None` exactly where it has none of this name.
pub fn method_named(class: ClassName, name: &[u8]) -> Option<Method>
    ensures { result ≡ method_named class name.now }
{
    named_in(methods_of(class), name)
}

/// Whether the first argument of a class's method is the key, or the row, that chooses a part of a
/// partitioned field; not so of a method that the class does not have.
pub fn is_keyed(class: ClassName, method: Method) -> bool
    ensures { result ≡ is_keyed class method }
{
    match class {
        ClassName::Table => matches!(
            method,
            Method::Get | Method::Has | Method::Put | Method::Add | Method::Remove
        ),
        ClassName::Matrix => matches!(
            method,
            Method::GetElement | Method::SetElement | Method::AddElement | Method::GetRow
        ),
        ClassName::Counter => false,
    }
}

fn methods_of(class: ClassName) -> &'static [Method]
    ensures { result.now ≡ methods_of class }
{
    match class {
        ClassName::Table => &[
            Method::Get,
            Method::Has,
            Method::Put,
            Method::Add,
            Method::Remove,
            Method::Size,
        ],
        ClassName::Matrix => &[
            Method::GetElement,
            Method::SetElement,
            Method::AddElement,
            Method::GetRow,
            Method::Multiply,
            Method::Size,
        ],
        ClassName::Counter => &[Method::Get, Method::Add, Method::Set],
    }
}

/// The first of some methods with a name.
fn named_in(methods: &[Method], name: &[u8]) -> Option<Method>
    ensures { result ≡ named name.now methods.now }
{
    match methods {
        [] => None,
        [method, others @ ..] => {
            if name == method.text().as_bytes() {
                Some(*method)
            } else {
                named_in(others, name)
            }
        }
    }
}
