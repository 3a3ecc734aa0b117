//! One queue of the ring bank: a row of words in 16 slots.
ghost use Rattle.std.specs.Prelude.{◌≡◌, length};

use fifo::{Cursor, Full, row};

// How many words a lane has room for.
const SLOTS: usize = 16;

// A fixed array, since a switch has no heap. It has no `Model`, as the ring has none: of a list of words alone nobody would
// know that they are no more than the depth. Its methods are a tray's, over slots of its own.
#[derive(Clone, Copy)]
pub(super) struct Lane {
    slots: [u32; SLOTS],
    cursor: Cursor,
    ghost sixteen: { length slots ≡ 16 },
}

impl Lane {
    ghost use Rattle.std.specs.Prelude.{[]};
    ghost use Rattle.fifo.specs.Row.{put_answer, put_waiting, oldest, rest};
    ghost use Rattle.bank.specs.Rings.{lane_words};

    pub(super) const DEPTH: u16 = SLOTS as u16;

    pub(super) fn new() -> Lane
        ensures { lane_words result ≡ [] }
    {
        Lane {
            slots: [0; SLOTS],
            cursor: Cursor::default(),
        }
    }

    pub(super) fn number(&self) -> u16
        ensures { result ≡ length (lane_words self.now) }
    {
        row::number(&self.slots, &self.cursor) as u16
    }

    pub(super) fn put(&mut self, word: u32) -> Result<(), Full>
        ensures answer { result ≡ put_answer 16 (lane_words self.old) }
        ensures waits { lane_words self.new ≡ put_waiting 16 (lane_words self.old) word }
    {
        row::put(&mut self.slots, &mut self.cursor, word)
    }

    pub(super) fn take(&mut self) -> Option<u32>
        ensures answer { result ≡ oldest (lane_words self.old) }
        ensures waits { lane_words self.new ≡ rest (lane_words self.old) }
    {
        row::take(&mut self.slots, &mut self.cursor)
    }

    pub(super) fn wipe(&mut self)
        ensures { lane_words self.new ≡ [] }
    {
        row::wipe(&mut self.cursor);
    }
}
