//! The state register: who owns a mailbox, and how many accesses and ticks are left to its owner.
ghost use Rattle.std.specs.Prelude.{◌≡◌, ◌+◌, ◌*◌, ◌%◌, ◌^◌, ◌≤◌};
ghost use Rattle.rules.specs.Register.{accessed, fallen, managers, packed, ticked, unlimited, unpacked};

/// The limit and the time that never fall.
// It stays a figure: a delegation grants 4095 as it does any other, and an enum would have a second value, `Finite(4095)`,
// for the same twelve bits.
pub const UNLIMITED: u16 = 4095;

/// Who owns a mailbox, and the accesses and ticks that are left.
#[derive(Clone, Copy, PartialEq, Eq, Debug)]
pub struct Register {
    pub owner: u8,
    pub limit: u16,
    pub time: u16,
}

// A figure after one access or one tick.
fn fall(figure: u16) -> u16
    ensures { result ≡ fallen figure }
{
    if figure == UNLIMITED {
        UNLIMITED
    } else {
        figure.saturating_sub(1)
    }
}

// The lowest 12 bits.
fn figure(word: u32) -> u16
    ensures { result ≡ word % 2 ^ 12 }
{
    (word & 0xFFF) as u16
}

/// Every word shows a register.
impl From<u32> for Register {
    ghost from_gives = { λ word register. (register ≡ unpacked word) × (packed register ≡ word) };

    fn from(word: u32) -> Register {
        Register {
            owner: (word >> 24) as u8,
            limit: figure(word >> 12),
            time: figure(word),
        }
    }
}

impl Register {
    /// A mailbox of the manager's, unlimited.
    pub fn managers() -> Register
        ensures { result ≡ managers }
    {
        Register {
            owner: 0,
            limit: UNLIMITED,
            time: UNLIMITED,
        }
    }

    // Owner, limit and time side by side in a word, where limit and time fit their 12 bits.
    #[tactic(auto, using(crate::proofs::Registers::side_by_side, crate::proofs::Registers::parts))]
    fn joined(self) -> u32
        requires limit { self.limit ≤ unlimited }
        requires time { self.time ≤ unlimited }
        ensures word { result ≡ self.owner * 2 ^ 24 + self.limit * 2 ^ 12 + self.time }
        ensures parts { unpacked result ≡ self }
    {
        u32::from(self.owner) << 24 | u32::from(self.limit) << 12 | u32::from(self.time)
    }

    /// The register as one word. Where limit and time fit their 12 bits, nothing is lost.
    // So it is no `From`, which loses nothing at all.
    pub fn pack(self) -> u32
        ensures word { result ≡ packed self }
        ensures back { self.limit ≤ unlimited → self.time ≤ unlimited → unpacked result ≡ self }
    {
        let shown = Register {
            limit: self.limit.min(UNLIMITED),
            time: self.time.min(UNLIMITED),
            ..self
        };
        shown.joined()
    }

    /// After one access by the owner. A limit of 0 is spent: the holding ends.
    pub fn accessed(self) -> Register
        ensures { result ≡ accessed self }
    {
        Register {
            limit: fall(self.limit),
            ..self
        }
    }

    /// After one tick. A time of 0 is spent: the holding ends.
    // It differs from `accessed` in the field alone, which no parameter names in fewer words.
    pub fn ticked(self) -> Register
        ensures { result ≡ ticked self }
    {
        Register {
            time: fall(self.time),
            ..self
        }
    }
}
