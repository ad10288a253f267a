//! What the run to completion may take next.

ghost use Rattle.std.specs.Prelude.{◌≡◌};
ghost use Rattle.std.specs.Option.{option_map};
ghost use Rattle.cluster.specs.Offering.{lower_of, offered};

use placement::Event;
use sdg_base::Port;

/// An item that can be taken: its call, the port that takes it, and the port that gave it. A result is
/// taken by the sink.
#[derive(Clone, Copy, Debug, PartialEq, Eq)]
pub struct Offer {
    pub call: u32,
    pub to: Port,
    pub from: Port,
}

impl Offer {
    ghost use Rattle.cluster.specs.World.{event_for};

    /// The event that takes it. The pick is what is left of the call's number by 64.
    pub fn event(self) -> Event
        ensures { result ≡ event_for (offered self) }
    {
        match self.to {
            Port::Sink => Event::Sink { from: self.from },
            to => Event::Take {
                to,
                from: self.from,
                pick: (self.call % 64) as u8,
            },
        }
    }
}

/// The one with the lower call, and the first of two with the same.
pub fn lower_of(best: Option<Offer>, next: Option<Offer>) -> Option<Offer>
    ensures { option_map offered result ≡ lower_of (option_map offered best) (option_map offered next) }
{
    match (best, next) {
        (best, None) => best,
        (None, next) => next,
        (Some(first), Some(second)) => { if second.call < first.call { next } else { best } }
    }
}
