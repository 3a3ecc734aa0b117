//! A first-in first-out row: put, take, oldest, number and wipe over lent slots and a cursor.
// Slots and cursor stay two parameters: a row has no memory of its own, and who lends the slots, for a call or for a tray's
// life, keeps them.
ghost use Rattle.std.specs.Prelude.{◌≡◌, ◌<◌, ◌≤◌, min, [], ◌∷◌, ◌++◌, length, is_some, is_ok, if◌then◌else◌, slice_set};
ghost use Rattle.fifo.specs.Row.{waiting, put_answer, put_waiting, oldest, rest, free, longer, shorter, empty};

use crate::cursor::{Cursor, Full};

// Writes `x` behind the elements that wait, where a slot is free.
#[tactic(auto, using(crate::proofs::Rows::appended_waits))]
fn append<T: Copy>(slots: &mut [T], cursor: &mut Cursor, x: T)
    requires { cursor.old.count < length slots.old }
    ensures waits { waiting slots.new cursor.new ≡ waiting slots.old cursor.old ++ x ∷ [] }
    ensures stored { slots.new ≡ slice_set slots.old (free (length slots.old) cursor.old) x }
    ensures moves { cursor.new ≡ longer (length slots.old) cursor.old }
{
    let size = slots.len();
    // Worked out before `x` is written, since a compiler that cannot tell slots and cursor apart would do it anew afterwards.
    let first = cursor.start(size);
    slots[cursor.slot(cursor.count, size)] = x;
    *cursor = Cursor {
        first,
        count: cursor.count + 1,
    };
}

// Leaves the oldest of the elements that wait behind, where one waits.
#[tactic(auto, using(crate::proofs::Rows::rest_waits))]
fn advance<T: Copy>(slots: &[T], cursor: &mut Cursor)
    requires { 0 < min cursor.old.count (length slots.now) }
    ensures waits { waiting slots.now cursor.new ≡ rest (waiting slots.now cursor.old) }
    ensures moves { cursor.new ≡ shorter (length slots.now) cursor.old }
{
    let size = slots.len();
    *cursor = Cursor {
        first: cursor.slot(1, size),
        count: cursor.filled(size) - 1,
    };
}

/// How many elements wait: never more than there are slots.
pub fn number<T: Copy>(slots: &[T], cursor: &Cursor) -> usize
    ensures value { result ≡ length (waiting slots.now cursor.now) }
    ensures bound { result ≤ length slots.now }
{
    cursor.filled(slots.len())
}

/// Appends `x`, or refuses exactly when as many elements wait as there are slots.
pub fn put<T: Copy>(slots: &mut [T], cursor: &mut Cursor, x: T) -> Result<(), Full>
    ensures answer { result ≡ put_answer (length slots.old) (waiting slots.old cursor.old) }
    ensures waits { waiting slots.new cursor.new ≡ put_waiting (length slots.old) (waiting slots.old cursor.old) x }
    ensures stored { slots.new ≡ (if is_ok result then slice_set slots.old (free (length slots.old) cursor.old) x else slots.old) }
    ensures moves { cursor.new ≡ (if is_ok result then longer (length slots.old) cursor.old else cursor.old) }
{
    if cursor.filled(slots.len()) == slots.len() {
        return Err(Full);
    }
    append(slots, cursor, x);
    Ok(())
}

/// Removes and answers the oldest element, or answers none exactly when none waits.
// It writes no slot; it is lent them to write so that a holder of a `&mut` slice can pass that slice on.
pub fn take<T: Copy>(slots: &mut [T], cursor: &mut Cursor) -> Option<T>
    ensures answer { result ≡ oldest (waiting slots.old cursor.old) }
    ensures waits { waiting slots.new cursor.new ≡ rest (waiting slots.old cursor.old) }
    ensures stored { slots.new ≡ slots.old }
    ensures moves { cursor.new ≡ (if is_some result then shorter (length slots.old) cursor.old else cursor.old) }
{
    let x = oldest(slots, cursor)?;
    advance(slots, cursor);
    Some(x)
}

/// The oldest element, or none exactly when none waits.
#[tactic(auto, using(crate::proofs::Rows::oldest_waits))]
pub fn oldest<T: Copy>(slots: &[T], cursor: &Cursor) -> Option<T>
    ensures { result ≡ oldest (waiting slots.now cursor.now) }
{
    if cursor.filled(slots.len()) == 0 {
        return None;
    }
    Some(slots[cursor.start(slots.len())])
}

/// Lets nothing wait. What lies in the slots stays there, and is written over by later puts.
pub fn wipe(cursor: &mut Cursor)
    ensures { cursor.new ≡ empty }
{
    *cursor = Cursor::default();
}
