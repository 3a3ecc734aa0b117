//! What is said of one mailbox: which domain is at its other end, which end sends, and who may own it.
ghost use Rattle.std.specs.Prelude.{◌≡◌, ◌<◌, ◌≤◌};
ghost use Rattle.rules.specs.Plan.{holds, wiring_ok, wirings_ok};

/// Which end of a mailbox sends; the other one receives.
#[derive(Clone, Copy, PartialEq, Eq, Debug)]
pub enum Direction {
    /// The fixed domain sends, and the owner receives.
    FixedSends,
    /// The owner sends, and the fixed domain receives.
    OwnerSends,
}

/// One mailbox of a description.
#[derive(Clone, Copy, PartialEq, Eq, Debug)]
pub struct Wiring {
    /// The domain at the other end, whoever owns the mailbox.
    pub fixed: u8,
    pub direction: Direction,
    /// The domains that may own the mailbox, the bit of weight 2^k for domain k.
    pub wired: u16,
}

impl Wiring {
    // What stands where there is no mailbox. It is no `None`: `Description::wiring` has an answer for every number.
    pub(crate) const NONE: Wiring = Wiring {
        fixed: 0,
        direction: Direction::FixedSends,
        wired: 0,
    };

    // Whether a domain may own the mailbox.
    fn is_wired(&self, x: u8) -> bool
        requires { x < 16 }
        ensures { result ≡ holds self.now.wired x }
    {
        self.wired >> x & 1 == 1
    }

    // Whether the rules let a rack of so many domains have this mailbox.
    pub(crate) fn is_allowed(&self, domains: u8) -> bool
        requires { domains ≤ 16 }
        ensures { result ≡ wiring_ok domains self.now }
    {
        (1..domains).contains(&self.fixed)
            && self.is_wired(0)
            && !self.is_wired(self.fixed)
            && u32::from(self.wired) >> domains == 0
    }
}

// Whether the rules let a rack of so many domains have these mailboxes. Where `accept` asks `all` itself, the check finds no
// proof of the description's ghost fields.
pub(crate) fn are_allowed(domains: u8, wirings: &[Wiring]) -> bool
    requires { domains ≤ 16 }
    ensures { result ≡ wirings_ok domains wirings.now }
{
    wirings.iter().all(|w| w.is_allowed(domains))
}
