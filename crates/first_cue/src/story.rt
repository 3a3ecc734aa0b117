//! A cue's way from grant to screen, as values: what the mailbox shows after each action.
ghost use Rattle.std.specs.Prelude.{◌≡◌};
ghost use Rattle.bank.specs.Queues.{change, wiped};
ghost use Rattle.first_cue.specs.Told.{seen, told};

use bank::Bank;
use rules::Register;
use std::fmt;

// The domain of the caller's panel; the manager is domain 0.
const PANEL: u8 = 1;

// The mailbox, which is also the number of its queue.
const MAILBOX: u8 = 0;

/// The state register as a word, and the number of words that wait.
#[derive(Clone, Copy, PartialEq, Eq, Debug)]
pub struct Seen {
    pub register: u32,
    pub waiting: u16,
}

/// What is seen after each action, and the cue that the display received.
#[derive(Clone, Copy, PartialEq, Eq, Debug)]
pub struct Story {
    pub fresh: Seen,
    pub granted: Seen,
    pub sent: Seen,
    pub aged: Seen,
    pub received: u32,
    pub emptied: Seen,
    pub ended: Seen,
}

impl fmt::Display for Seen {
    fn fmt<W: fmt::Write>(&self, f: &mut fmt::Formatter<W>) -> fmt::Result {
        write!(
            f,
            "register {:08X}, {} waiting",
            self.register, self.waiting
        )
    }
}

fn see<B: Bank>(register: Register, bank: &B) -> Seen
    ensures { result ≡ seen register (B.queues bank.now) }
{
    Seen {
        register: register.pack(),
        waiting: bank.number(MAILBOX),
    }
}

// Over every bank the story is the same, whatever waited there before, and no other queue is touched. No step is refused,
// which `unwrap` asks the check to prove.
pub(super) fn first_cue<B: Bank>(bank: &mut B, cue: u32) -> Story
    ensures answer { result ≡ told cue }
    ensures after { B.queues bank.new ≡ change wiped (B.queues bank.old) 0 }
{
    bank.wipe(MAILBOX);
    let fresh = see(Register::managers(), bank);
    let grant = Register {
        owner: PANEL,
        limit: 2,
        time: 60,
    };
    let granted = see(grant, bank);
    bank.put(MAILBOX, cue).unwrap();
    let charged = grant.accessed();
    let sent = see(charged, bank);
    let older = charged.ticked();
    let aged = see(older, bank);
    let received = bank.take(MAILBOX).unwrap();
    let emptied = see(older, bank);
    bank.wipe(MAILBOX);
    let ended = see(Register::managers(), bank);
    Story {
        fresh,
        granted,
        sent,
        aged,
        received,
        emptied,
        ended,
    }
}
