//! The methods of the classes that hold state.

ghost use Rattle.std.specs.Prelude.{◌≡◌};
ghost use Rattle.early_tables.specs.States.{method_text, arity};

/// A method of a class that holds state, by its name.
#[derive(Clone, Copy, Debug, PartialEq, Eq)]
pub enum Method {
    Get,
    Put,
}

impl Method {
    /// The letters of its name.
    pub fn text(self) -> &'static str
        ensures { result.now ≡ method_text self }
    {
        match self {
            Method::Get => "get",
            Method::Put => "put",
        }
    }

    /// How many arguments it takes.
    pub fn arity(self) -> usize
        ensures { result ≡ arity self }
    {
        match self {
            Method::Get => 1,
            Method::Put => 2,
        }
    }
}
