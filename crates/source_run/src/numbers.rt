//! Calls count from 1.

ghost use Rattle.std.specs.Prelude.{◌≡◌};
ghost use Rattle.std.specs.Option.{option_copied};
ghost use Rattle.access_blocks.specs.Source as source;

use sqlite_items::at;

/// The item of a number, where they count from 1.
pub(crate) fn nth<T>(items: &[T], number: u32) -> Option<&T>
    ensures { option_copied result ≡ source.nth items.now number }
{
    if number == 0 {
        return None;
    }
    at(items, number as usize - 1)
}
