//! The eleven commands that a switch carries out.

/// A command, with who gives it and what it names.
// Each kind has its fields as they are told, in their order, and the rules have a line for each kind. So `caller`, with
// `mailbox` or `domain`, is a field of most kinds and no struct around them.
#[derive(Clone, Copy, PartialEq, Eq, Debug)]
pub enum Command {
    /// The manager gives a mailbox to a domain, for so many accesses and ticks.
    Delegate {
        caller: u8,
        mailbox: u8,
        to: u8,
        limit: u16,
        time: u16,
    },
    /// The owner gives its mailbox back.
    Yield {
        caller: u8,
        mailbox: u8,
    },
    /// A word for the other end of a mailbox.
    Send {
        caller: u8,
        mailbox: u8,
        word: u32,
    },
    /// The oldest word from the other end.
    Receive {
        caller: u8,
        mailbox: u8,
    },
    /// The state register of a mailbox, for its two ends.
    Status {
        caller: u8,
        mailbox: u8,
    },
    /// The manager writes to the reset guard of a domain.
    GuardWrite {
        caller: u8,
        domain: u8,
        value: u32,
    },
    /// The manager asks how the latest reset of a domain went.
    GuardRead {
        caller: u8,
        domain: u8,
    },
    /// The manager selects where streamed words go.
    Arbiter {
        caller: u8,
        value: u32,
    },
    /// A word for the device, from outside.
    Stream {
        word: u32,
    },
    /// The oldest streamed word, for the device or the untrusted domain.
    Pull {
        caller: u8,
    },
    /// Time passes.
    Tick,
}
