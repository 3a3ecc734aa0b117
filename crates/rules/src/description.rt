//! An accepted description of a rack: how many domains and mailboxes there are, and who is wired to what.
ghost use Rattle.std.specs.Prelude.{◌≡◌, ◌≤◌, true, length, take};
ghost use Rattle.rules.specs.Plan.{accepts};
ghost use Rattle.rules.specs.Wiring.{padded};

use crate::arbiter::Arbiter;
use crate::wiring::{Wiring, are_allowed};

// The most mailboxes that a rack has.
const MAILBOXES: usize = 8;

/// An accepted description. It never breaks the rules, so no command tests them again. Only `accept` makes one.
#[derive(Clone, Copy, PartialEq, Eq, Debug)]
pub struct Description {
    /// How many domains there are; domain 0 is the manager.
    pub domains: u8,
    /// How many mailboxes there are.
    pub mailboxes: u8,
    /// Who streamed words are for, if there is an arbiter.
    pub arbiter: Option<Arbiter>,
    // The mailboxes' wirings, and `Wiring::NONE` at the places behind them. An `ArrayVec` would count them itself, but it
    // is not `Copy`, as a description is.
    wirings: [Wiring; MAILBOXES],
    ghost few: { domains ≤ 16 },
    ghost fewer: { mailboxes ≤ 8 },
    ghost eight: { length wirings ≡ 8 },
    ghost accepted: { accepts domains arbiter (take mailboxes wirings) ≡ true },
}

// Eight places, the first of them for the mailboxes that there are.
#[tactic(auto, using(crate::proofs::Wirings::written_over))]
fn pad(wirings: &[Wiring]) -> [Wiring; MAILBOXES]
    requires { length wirings.now ≤ 8 }
    ensures padded { result ≡ padded wirings.now }
    ensures front { take (length wirings.now) result ≡ wirings.now }
{
    let mut places = [Wiring::NONE; MAILBOXES];
    places[..wirings.len()].copy_from_slice(wirings);
    places
}

impl Description {
    ghost use Rattle.rules.specs.Description.{accept_answer, parts, wiring};

    /// The description of these parts, or none exactly where they break a rule. The two domains come as a description's bytes
    /// have them: two zeros where there is no arbiter.
    pub fn accept(domains: u8, device: u8, untrusted: u8, wirings: &[Wiring]) -> Option<Description>
        ensures { parts result ≡ accept_answer domains device untrusted wirings.now }
    {
        if !(2..=16).contains(&domains) || !(1..=MAILBOXES).contains(&wirings.len()) {
            return None;
        }
        let arbiter = Arbiter::of(device, untrusted);
        if arbiter.is_some_and(|a| !a.is_allowed(domains)) {
            return None;
        }
        if !are_allowed(domains, wirings) {
            return None;
        }
        Some(Description {
            domains,
            mailboxes: wirings.len() as u8,
            arbiter,
            wirings: pad(wirings),
        })
    }

    /// What the description says of a mailbox. A number that no mailbox has is wired to nobody.
    pub fn wiring(&self, mailbox: u8) -> Wiring
        ensures { result ≡ wiring self.now mailbox }
    {
        self.wirings
            .get(usize::from(mailbox))
            .copied()
            .unwrap_or(Wiring::NONE)
    }
}
