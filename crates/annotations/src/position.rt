//! Where an expression stands.

ghost use Rattle.std.specs.Prelude.{◌≡◌};
ghost use Rattle.annotations.specs.Positions as spec;

use java_tree::AssignOp;

/// What an expression is a part of.
#[derive(Clone, Copy)]
pub enum Position {
    /// Of an expression, an argument, a condition or a compound assignment.
    Inside,
    /// Of the arguments of the call of a merge method that begins at this token; it may be the one that merges.
    Merged { call: usize, merges: bool },
    /// It is the whole of an initialiser, of the right side of `=` or of a value that is returned.
    Whole,
    /// It is the whole of an expression statement.
    Statement,
    /// It is the whole of the initialiser of a `@Partial` local.
    Gathered,
}

impl Position {
    /// Whether an access to state may stand here.
    pub fn is_whole(self) -> bool
        ensures { result ≡ spec.is_whole self }
    {
        match self {
            Position::Inside | Position::Merged { .. } => false,
            Position::Whole | Position::Statement | Position::Gathered => true,
        }
    }

    /// Whether it may stand here behind `@Global`.
    pub fn is_for_global(self) -> bool
        ensures { result ≡ spec.is_for_global self }
    {
        match self {
            Position::Inside | Position::Merged { .. } | Position::Whole => false,
            Position::Statement | Position::Gathered => true,
        }
    }

    /// Whether a call that merges may stand here.
    pub fn is_for_merge(self) -> bool
        ensures { result ≡ spec.is_for_merge self }
    {
        matches!(self, Position::Whole)
    }

    /// Whether a `@Partial` local may be named here behind `@Global`.
    pub fn merges(self) -> bool
        ensures { result ≡ spec.merges self }
    {
        match self {
            Position::Merged { merges, .. } => merges,
            Position::Inside | Position::Whole | Position::Statement | Position::Gathered => false,
        }
    }
}

/// Where the right side of an assignment stands.
pub fn assigned_by(op: AssignOp) -> Position
    ensures { result ≡ spec.assigned_by op }
{
    match op {
        AssignOp::Assign => Position::Whole,
        _ => Position::Inside,
    }
}

/// Where the initialiser of a local stands.
pub fn initialiser_of(is_partial: bool) -> Position
    ensures { result ≡ spec.initialiser_of is_partial }
{
    if is_partial {
        Position::Gathered
    } else {
        Position::Whole
    }
}
