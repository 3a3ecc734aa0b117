//! A tray: a row over slots that the caller lends, and has back when the tray ends.
ghost use Rattle.std.specs.Prelude.{◌≡◌, [], length, is_some, is_ok, if◌then◌else◌, slice_set};
ghost use Rattle.fifo.specs.Row.{put_answer, put_waiting, oldest, rest, free, longer, shorter, empty, full};
ghost use Rattle.fifo.specs.Tray.{held, places};

use crate::cursor::{Cursor, Full};
use crate::row;

/// A row over slots that its caller lends.
// It has no `Model`: clauses speak of the lent slots and of the cursor as well as of what waits, so a model would be a record
// of these two once more. Slots and cursor lie side by side, as a row's do (a rule of the project).
#[derive(Drop)]
pub struct Tray<'a, T> {
    slots: &'a mut [T],
    cursor: Cursor,
}

// `put`, `take`, `oldest` and `number` pass slots and cursor on to the row, and `wipe` the cursor (a rule of the project). Each
// that may write says which slots the tray still lends (`lender`): the same ones, so that what is said of them here (`stored`)
// is said of the caller's slice. That compares the tray with what it was, as no field or invariant of it can.
impl<'a, T: Copy> Tray<'a, T> {
    /// An empty tray over the slots, which stay as they are.
    pub fn new(slots: &'a mut [T]) -> Tray<'a, T>
        ensures waits { held result ≡ [] }
        ensures stored { result.slots.now ≡ slots.old }
        ensures lender { result.slots.ghost_name ≡ slots.entry.ghost_name }
        ensures moves { result.cursor ≡ empty }
    {
        Tray {
            slots,
            cursor: Cursor::default(),
        }
    }

    /// Appends `x`, or refuses exactly when as many elements wait as there are slots.
    pub fn put(&mut self, x: T) -> Result<(), Full>
        ensures answer { result ≡ put_answer (places self.old) (held self.old) }
        ensures waits { held self.new ≡ put_waiting (places self.old) (held self.old) x }
        ensures stored { self.new.slots.now ≡ (if is_ok result then slice_set self.old.slots.now (free (places self.old) self.old.cursor) x else self.old.slots.now) }
        ensures moves { self.new.cursor ≡ (if is_ok result then longer (places self.old) self.old.cursor else self.old.cursor) }
        ensures lender { self.new.slots.ghost_name ≡ self.old.slots.ghost_name }
    {
        row::put(self.slots, &mut self.cursor, x)
    }

    /// Removes and answers the oldest element, or answers none exactly when none waits.
    pub fn take(&mut self) -> Option<T>
        ensures answer { result ≡ oldest (held self.old) }
        ensures waits { held self.new ≡ rest (held self.old) }
        ensures stored { self.new.slots.now ≡ self.old.slots.now }
        ensures moves { self.new.cursor ≡ (if is_some result then shorter (places self.old) self.old.cursor else self.old.cursor) }
        ensures lender { self.new.slots.ghost_name ≡ self.old.slots.ghost_name }
    {
        row::take(self.slots, &mut self.cursor)
    }

    /// The oldest element, or none exactly when none waits.
    pub fn oldest(&self) -> Option<T>
        ensures { result ≡ oldest (held self.now) }
    {
        row::oldest(self.slots, &self.cursor)
    }

    /// How many elements wait.
    pub fn number(&self) -> usize
        ensures { result ≡ length (held self.now) }
    {
        row::number(self.slots, &self.cursor)
    }

    /// Whether as many elements wait as there are slots.
    pub fn is_full(&self) -> bool
        ensures { result ≡ full (places self.now) (held self.now) }
    {
        self.number() == self.slots.len()
    }

    /// Lets nothing wait, and writes no slot.
    pub fn wipe(&mut self)
        ensures waits { held self.new ≡ [] }
        ensures stored { self.new.slots.now ≡ self.old.slots.now }
        ensures moves { self.new.cursor ≡ empty }
        ensures lender { self.new.slots.ghost_name ≡ self.old.slots.ghost_name }
    {
        row::wipe(&mut self.cursor);
    }
}
