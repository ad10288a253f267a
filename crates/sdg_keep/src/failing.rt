//! Which calls of a form in memory are to fail.

ghost use Rattle.std.specs.Prelude.{◌≡◌};
ghost use Rattle.sdg_keep.specs.Failing.{fail_of};

use sqlite_items::Items;

/// The calls that are to fail, by their number from 1 on, each with whether it takes effect though it
/// fails. Of a number that stands twice the first counts. Only calls that are noted have a number.
pub type Fails = Items<(u64, bool)>;

/// Whether the call of a number takes effect though it fails, where it is to fail.
pub(crate) fn fail_at(fails: &Fails, number: u64) -> Option<bool>
    ensures { result ≡ fail_of fails.now number }
{
    for fail in fails.as_slice() {
        if fail.0 == number {
            return Some(fail.1);
        }
    }
    None
}
