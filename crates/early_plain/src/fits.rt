//! Which calls a class can be given.

ghost use Rattle.std.specs.Prelude.{◌↔◌, All, IsTrue};
ghost use Rattle.early_plain.specs.Fits.{CallFits, IsLong};

use early_forms::StraightClass;
use sdg_base::{Call, Calls, Val};

fn is_long(value: &Val) -> bool
    ensures { IsTrue result ↔ IsLong value.now }
{
    matches!(value, Val::Long(_))
}

fn are_longs(values: &[Val]) -> bool
    ensures { IsTrue result ↔ All IsLong values.now }
{
    values.iter().all(is_long)
}

fn call_fits(class: &StraightClass, call: &Call) -> bool
    ensures { IsTrue result ↔ CallFits class.now call.now }
{
    match class.methods.get(usize::from(call.method)) {
        Some(method) => {
            call.args.len() == method.parameters.len() && are_longs(call.args.as_slice())
        }
        None => false,
    }
}

/// Whether each call names a method by its place and has one argument of type `long` for each of its
/// parameters.
pub fn calls_fit(class: &StraightClass, calls: &Calls) -> bool
    ensures { IsTrue result ↔ All (CallFits class.now) calls.now }
{
    calls.as_slice().iter().all(|call| call_fits(class, call))
}
