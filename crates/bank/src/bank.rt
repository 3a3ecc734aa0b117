//! What a bank of ten queues promises, whatever it is built of.
ghost use Rattle.std.specs.Prelude.{◌≡◌, List, length, is_ok, if◌then◌else◌};
ghost use Rattle.bank.specs.Queues.{Queue, Sound, at, change, put_answer, grown, take_answer, shrunk, wiped};

use fifo::Full;

/// Why a bank refuses.
#[derive(Clone, Copy, PartialEq, Eq, Debug)]
pub enum Fault {
    /// As many words wait in the queue as its depth.
    Full,
    /// No word waits in the queue.
    Empty,
}

/// A row that is full is a queue that is full.
impl From<Full> for Fault {
    ghost use Rattle.bank.specs.declared.bank.Fault.{Fault};

    ghost from_gives = { λ _ fault. fault ≡ Fault.Full };

    fn from(_full: Full) -> Fault {
        Fault::Full
    }
}

/// Ten queues, numbered 0 to 9, each a list of 32-bit words with a fixed depth. A number above 9 names a queue of depth
/// 0 with no word: it is full, it is empty, and to wipe it does nothing.
pub trait Bank {
    /// The meaning: the ten queues, in the order of their numbers.
    ghost queues: { Self → List Queue };

    /// How many words the queue can hold.
    fn depth(&self, q: u8) -> u16
        ensures { result ≡ (at (queues self.now) q).depth };

    /// How many words wait in the queue.
    fn number(&self, q: u8) -> u16
        ensures { result ≡ length (at (queues self.now) q).words };

    /// Appends a word, or refuses as full exactly when as many words wait as the depth, and alters nothing then.
    fn put(&mut self, q: u8, word: u32) -> Result<(), Fault>
        ensures answer { result ≡ put_answer (queues self.old) q }
        ensures after { queues self.new ≡ (if is_ok result then change (grown word) (queues self.old) q else queues self.old) };

    /// Removes and answers the oldest word, or refuses as empty exactly when none waits, and alters nothing then.
    fn take(&mut self, q: u8) -> Result<u32, Fault>
        ensures answer { result ≡ take_answer (queues self.old) q }
        ensures after { queues self.new ≡ (if is_ok result then change shrunk (queues self.old) q else queues self.old) };

    /// Empties the queue.
    fn wipe(&mut self, q: u8)
        ensures { queues self.new ≡ change wiped (queues self.old) q };

    /// Ten there are, each from 1 to 4,096 words deep, and never more words wait than the depth.
    ghost sound: { (b : Self) → Sound (queues b) };
}
