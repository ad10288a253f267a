//! The changes of stores and lines that a keep in memory holds.

ghost use Rattle.std.specs.Prelude.{◌≡◌, ◌∷◌, ◌++◌, [], Some, None, drop, IfOk, if◌then◌else◌};
ghost use Rattle.std.specs.Option.{option_copied};
ghost use Rattle.sdg_keep.specs.Stable.{same_name, same_line};
ghost use Rattle.sdg_keep.specs.Stored.{read_after, notes_after};

use sdg_base::{Bytes, Line, Name, Note, Notes};
use sqlite_items::Items;
use std::alloc::{AllocError, Global};

/// A change of stores and lines: all were cleared, bytes were put to a name, a store was synced, or a
/// line has one more note. A put without effect counts as put too.
#[derive(Debug, Drop)]
pub enum Change {
    Clear,
    Put {
        store: u8,
        name: Name,
        bytes: Bytes,
        took: bool,
    },
    Sync {
        store: u8,
    },
    Append {
        line: Line,
        note: Note,
    },
}

/// Changes in their order.
pub type Changes = Items<Change>;

/// Whether two lines are one.
#[tactic(auto, unfolding(crate::specs::Stable::same_line, sdg_base::specs::Ports::same_port))]
fn same_line(left: Line, right: Line) -> bool
    ensures { result ≡ same_line left right }
{
    left == right
}

/// What a read of a name gives after these changes.
pub(crate) fn bytes_after<'a>(changes: &'a Changes, store: u8, name: &Name) -> Option<&'a Bytes>
    ensures { option_copied result ≡ read_after None changes.now store name.now }
{
    let mut read = None;
    for change in changes.as_slice() {
        match change {
            Change::Clear => read = None,
            Change::Put {
                store: at,
                name: other,
                bytes,
                took,
            } => {
                if *took && *at == store && other.as_slice() == name.as_slice() {
                    read = Some(bytes);
                }
            }
            _ => {}
        }
    }
    read
}

/// The notes of a line after these changes.
fn notes_after(alloc: Global, changes: &Changes, line: Line) -> Result<Notes, AllocError>
    ensures { IfOk result (λ notes. notes ≡ notes_after [] changes.now line) }
{
    let mut notes = Notes::new(alloc);
    for change in changes.as_slice() {
        match change {
            Change::Clear => notes = Notes::new(alloc),
            Change::Append { line: other, note } => {
                if same_line(*other, line) {
                    notes.push(*note)?;
                }
            }
            _ => {}
        }
    }
    Ok(notes)
}

/// The notes of a line after these changes, without the first `from`.
pub(crate) fn notes_behind(
    alloc: Global,
    changes: &Changes,
    line: Line,
    from: u64,
) -> Result<Notes, AllocError>
    ensures { IfOk result (λ notes. notes ≡ drop from (notes_after [] changes.now line)) }
{
    let notes = notes_after(alloc, changes, line)?;
    let start = notes.len().min(from as usize);
    Notes::from_slice(alloc, notes.as_slice().split_at(start).1)
}
