//! Why a command is refused, and the number of each reason.
ghost use Rattle.std.specs.Prelude.{◌≡◌};
ghost use Rattle.rules.specs.Refusal.{number};

/// Each reason has the number that it is shown as. The numbers that none has here are for bytes that are read or written.
#[derive(Clone, Copy, PartialEq, Eq, Debug)]
pub enum Refusal {
    /// The caller is no domain of the rack.
    UnknownCaller = 5,
    /// There is no such mailbox.
    UnknownMailbox = 6,
    /// The domain named is the manager, or no domain of the rack.
    UnknownDomain = 7,
    /// The rack has no arbiter.
    NoArbiter = 8,
    /// This caller may never do this.
    NotPermitted = 9,
    /// The caller does not own the mailbox or, to send or receive, is neither its owner nor its fixed domain.
    NotItsMailbox = 10,
    /// A send or receive against the mailbox's direction.
    WrongDirection = 11,
    /// The domain named is not wired to the mailbox.
    NotWired = 12,
    /// The limit or time is 0 or above 4095.
    OutOfRange = 13,
    /// The value selects neither DMA nor the device's own queue.
    UnknownRoute = 14,
    /// DMA is selected while the untrusted domain owns no mailbox fixed at the device domain.
    NotEntitled = 15,
    /// As many words wait in the queue as its depth.
    QueueFull = 16,
    /// No word waits in the queue.
    QueueEmpty = 17,
}

impl From<Refusal> for u8 {
    ghost from_gives = { λ refusal code. code ≡ number refusal };

    fn from(refusal: Refusal) -> u8 {
        refusal as u8
    }
}
