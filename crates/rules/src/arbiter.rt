//! The two domains that streamed words are for.
ghost use Rattle.std.specs.Prelude.{◌≡◌};
ghost use Rattle.rules.specs.Plan.{arbiter_of, is_apart};

/// The device domain and the untrusted domain of a rack that has them.
#[derive(Clone, Copy, PartialEq, Eq, Debug)]
pub struct Arbiter {
    /// Pulls from its own queue, and is fed unless DMA is selected.
    pub device: u8,
    /// Is fed while DMA is selected.
    pub untrusted: u8,
}

impl Arbiter {
    // The arbiter of two numbers: two zeros tell of none.
    pub(crate) fn of(device: u8, untrusted: u8) -> Option<Arbiter>
        ensures { result ≡ arbiter_of device untrusted }
    {
        if device == 0 && untrusted == 0 {
            return None;
        }
        Some(Arbiter { device, untrusted })
    }

    // Whether the rules let a rack of so many domains have this arbiter.
    pub(crate) fn is_allowed(&self, domains: u8) -> bool
        ensures { result ≡ is_apart domains self.now }
    {
        let ordinary = 1..domains;
        ordinary.contains(&self.device)
            && ordinary.contains(&self.untrusted)
            && self.device != self.untrusted
    }
}
