//! Why a part of a file could not be read.

ghost use Rattle.std.specs.Prelude.{◌≡◌, [], IfOk, decimal};
ghost use Rattle.graph_file.specs.Found.{IsUnder, path_under};
ghost use Rattle.graph_file.specs.declared.fault.Fault.TheVariants as fault;

use sdg_base::Name;
use sqlite_items::Items;
use std::alloc::{AllocError, Global};

/// Why a part of a file could not be read: the form fails below that part, at this path first, or
/// memory ran out.
#[derive(Drop)]
pub(crate) enum Fault {
    Misfit(Name),
    Memory,
}

impl From<AllocError> for Fault {
    ghost from_gives = { λ _ f. f ≡ fault.Memory };

    fn from(_e: AllocError) -> Fault {
        Fault::Memory
    }
}

impl Fault {
    /// The fault of a part that breaks the form itself.
    pub(crate) fn here(alloc: Global) -> Fault
        ensures { result ≡ fault.Misfit [] }
    {
        Fault::Misfit(Items::new(alloc))
    }

    /// The same fault, of the list that holds the faulty part at an index.
    pub(crate) fn at(self, alloc: Global, index: usize) -> Fault
        ensures { IsUnder (decimal index) self result }
    {
        match format!(in alloc; "{index}") {
            Ok(step) => self.under(alloc, step.as_str()),
            Err(_) => Fault::Memory,
        }
    }

    /// The same fault, of the part that holds the faulty one at a key or an index.
    pub(crate) fn under(self, alloc: Global, step: &str) -> Fault
        ensures { IsUnder step.now self result }
    {
        match self {
            Fault::Misfit(path) => match path_under(alloc, step, path) {
                Ok(longer) => Fault::Misfit(longer),
                Err(_) => Fault::Memory,
            },
            Fault::Memory => Fault::Memory,
        }
    }
}

/// A path with a key or an index before it.
fn path_under(alloc: Global, step: &str, path: Name) -> Result<Name, AllocError>
    ensures { IfOk result (λ longer. longer ≡ path_under step.now path) }
{
    let mut longer = Items::new(alloc);
    longer.push(b'/')?;
    longer.append(Items::from_slice(alloc, step.as_bytes())?)?;
    longer.append(path)?;
    Ok(longer)
}
