//! The reset guard of a domain: two values in a row reset it, unless that would cut off whoever holds a mailbox there.
ghost use Rattle.std.specs.Prelude.{◌≡◌};
ghost use Rattle.rules.specs.Guard.{effect, fresh_guard, left_by, tried};

/// The value that arms a guard.
pub const ARM: u32 = 0xDEADBEEF;

/// The value that tries the reset, where the guard is armed.
pub const TRY: u32 = 0xDEADDEAD;

// The results of a try: the domain was reset, or the try was blocked.
const DONE: u32 = 0x0000AAAA;

const BLOCKED: u32 = 0x0000FFFF;

/// Whether the value that arms was the latest one written.
#[derive(Clone, Copy, PartialEq, Eq, Debug)]
pub enum Stance {
    /// Nothing is under way.
    Idle,
    /// The value that tries, written next, tries the reset.
    Armed,
}

/// The guard of one domain.
#[derive(Clone, Copy, PartialEq, Eq, Debug)]
pub struct Guard {
    pub stance: Stance,
    /// How the latest try went, as a guard read answers it.
    // It stays a word: of an enum of the two there would be no guard with another result, such as the rules have at a
    // number that no domain has, and who writes a guard down may give it any.
    pub result: u32,
}

/// What a written value does to a guard.
#[derive(Clone, Copy, PartialEq, Eq, Debug)]
pub enum Effect {
    /// The guard is armed.
    Arms,
    /// The reset is tried.
    Tries,
    /// The guard is idle, and nothing else.
    Rests,
}

impl Guard {
    /// Idle, as if it had been reset.
    pub fn fresh() -> Guard
        ensures { result ≡ fresh_guard }
    {
        Guard {
            stance: Stance::Idle,
            result: DONE,
        }
    }

    /// What the value does to this guard.
    pub fn effect(self, value: u32) -> Effect
        ensures { result ≡ effect self.stance value }
    {
        // State and value are matched together, with conditions that name the two values (a rule of the project).
        match (self.stance, value) {
            (Stance::Armed, v) if v == TRY => Effect::Tries,
            (_, v) if v == ARM => Effect::Arms,
            (_, _) => Effect::Rests,
        }
    }

    /// After a try, which was blocked or reset the domain.
    pub fn tried(blocked: bool) -> Guard
        ensures { result ≡ tried blocked }
    {
        Guard {
            stance: Stance::Idle,
            result: if blocked { BLOCKED } else { DONE },
        }
    }

    /// After the value was written; `blocked` says whether a try is blocked.
    pub fn written(self, value: u32, blocked: bool) -> Guard
        ensures { result ≡ left_by (effect self.stance value) blocked self }
    {
        match self.effect(value) {
            Effect::Arms => Guard {
                stance: Stance::Armed,
                ..self
            },
            Effect::Tries => Guard::tried(blocked),
            Effect::Rests => Guard {
                stance: Stance::Idle,
                ..self
            },
        }
    }
}
