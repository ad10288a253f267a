//! The classes that hold state: what their methods answer and change.

ghost use Rattle.std.specs.Prelude.{◌≡◌, ℤ, Bool, List, Option, IfSome, IfOk, OnOk, OnErr};
ghost use Rattle.sdg_base.specs.declared.val.Val.{Val};
ghost use Rattle.state_classes.specs.declared.method.Method.{Method};
ghost use Rattle.state_classes.specs.declared.plan.Plan.{Plan};
ghost use Rattle.state_classes.specs.Entries.{with_entry, changed};
ghost use Rattle.state_classes.specs.Laws.{CallsKeepToTheirPart};

use crate::held::Held;
use crate::method::Method;
use crate::plan::Plan;
use sdg_base::{Outcome, Vals};
use std::alloc::{AllocError, Global};

/// A class that holds state. What a method answers and changes is planned over whatever holds
/// entries of the class's keys, and then made.
pub trait StateClass: Held {
    /// What a method is to answer and to change, on entries.
    ghost planned: { Method → List Val → List (Self.Key × Self.Value) → Plan Self.Key Self.Value };

    /// The changes of an entry that the class takes.
    ghost takes: { Self.Key → Option Self.Value → Type 0 };

    /// Whether the first argument of a method is the key, or the row, that chooses a part.
    ghost keyed: { Method → Bool };

    /// The keys of the part that such an argument chooses.
    ghost is_in_part: { ℤ → Self.Key → Type 0 };

    /// Plans a method on what `held` holds. A method that the class does not have, and arguments of
    /// other types, answer nothing and change nothing.
    ///
    /// # Errors
    /// For want of memory.
    fn plan<H: Held<Key = Self::Key, Value = Self::Value>>(
        alloc: Global,
        held: &H,
        method: Method,
        args: &Vals,
    ) -> Result<Plan<Self::Key, Self::Value>, AllocError>
        ensures { IfOk result (λ plan. plan ≡ planned method args.now (H.entries held.now)) };

    /// Sets the entry of a key, or removes it.
    ///
    /// # Errors
    /// For want of memory. The entries are then as they were.
    fn change(
        &mut self,
        alloc: Global,
        key: Self::Key,
        value: Option<Self::Value>,
    ) -> Result<(), AllocError>
        requires { takes key value }
        ensures ok { OnOk result (Self.entries self.new ≡ with_entry Self.Key.cmp key value (Self.entries self.old)) }
        ensures err { OnErr result (Self.entries self.new ≡ Self.entries self.old) };

    /// Plans a method on its own entries, and makes the change.
    ///
    /// # Errors
    /// For want of memory. The entries are then as they were.
    fn call(&mut self, alloc: Global, method: Method, args: &Vals) -> Result<Outcome, AllocError>
        ensures outcome { IfOk result (λ outcome. outcome ≡ (planned method args.now (Self.entries self.old)).outcome) }
        ensures change { OnOk result (Self.entries self.new
            ≡ changed Self.Key.cmp (planned method args.now (Self.entries self.old)).change (Self.entries self.old)) }
        ensures err { OnErr result (Self.entries self.new ≡ Self.entries self.old) };

    /// A keyed call depends on the entries of its part alone, and changes an entry of it.
    ghost keeps: { CallsKeepToTheirPart Self.Key.cmp is_in_part keyed planned };

    /// The class takes what its plans change.
    ghost taken: { (m : Method) (args : List Val) (held : List (Self.Key × Self.Value)) → IfSome (planned m args held).change (λ change. takes change.0 change.1) };
}
