//! The record of reads.

ghost use Rattle.std.specs.Prelude.{◌≡◌, ◌∷◌, ◌++◌, [], OnOk, OnErr};
ghost use Rattle.std.specs.String.{string_bytes};

use sdg_base::Name;
use sqlite_items::Items;
use std::alloc::{AllocError, Global};

/// A call of `read` that was answered: the name of the file, the number of the first byte, for how
/// many bytes there was room, and how many it gave, `None` where it failed.
#[derive(Debug, Drop)]
pub struct ReadCall {
    pub name: Name,
    pub from: u64,
    pub room: usize,
    pub gave: Option<usize>,
}

/// Notes a call of `read` behind those before it. Without memory the record stays as it was.
pub fn note_read(
    alloc: Global,
    calls: &mut Items<ReadCall>,
    name: &String,
    from: u64,
    room: usize,
    gave: Option<usize>,
) -> Result<(), AllocError>
    ensures noted { OnOk result (calls.new
        ≡ calls.old ++ record { name = string_bytes name.now; from = from; room = room; gave = gave } ∷ []) }
    ensures err { OnErr result (calls.new ≡ calls.old) }
{
    let name = Name::from_slice(alloc, name.as_bytes())?;
    calls.push(ReadCall {
        name,
        from,
        room,
        gave,
    })
}
