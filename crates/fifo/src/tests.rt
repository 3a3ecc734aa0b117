//! Rows and trays on examples: round the end, full, empty, and a single place.
ghost use Rattle.std.specs.Prelude.{◌≡◌, is_ok, if◌then◌else◌, slice_set};

use crate::cursor::{Cursor, Full};
use crate::row;
use crate::tray::Tray;

// Four letters through three slots: the fourth goes into the slot that the first has left.
#[test]
fn a_row_goes_round_its_end(rt: HostRuntime) {
    let mut slots = ['a', 'b', 'c'];
    let mut cursor = Cursor { first: 0, count: 3 };
    assert_eq!(rt; row::put(&mut slots, &mut cursor, 'd'), Err(Full));
    assert_eq!(rt; row::take(&mut slots, &mut cursor), Some('a'));
    assert_eq!(rt; row::put(&mut slots, &mut cursor, 'd'), Ok(()));
    assert_eq!(rt; slots, ['d', 'b', 'c']);
    assert_eq!(rt; row::number(&slots, &cursor), 3);
}

// From the middle slot round to the first, oldest first.
#[test]
fn a_row_is_read_round_its_end(rt: HostRuntime) {
    let mut slots = ['d', 'b', 'c'];
    let mut cursor = Cursor { first: 1, count: 3 };
    assert_eq!(rt; row::take(&mut slots, &mut cursor), Some('b'));
    assert_eq!(rt; row::take(&mut slots, &mut cursor), Some('c'));
    assert_eq!(rt; row::oldest(&slots, &cursor), Some('d'));
    assert_eq!(rt; row::take(&mut slots, &mut cursor), Some('d'));
    assert_eq!(rt; row::take(&mut slots, &mut cursor), None);
}

// No cursor is wrong: a first slot past the end is read as 0, a count past the end as all slots.
#[test]
fn a_row_reads_any_cursor(rt: HostRuntime) {
    let mut slots = [7u16, 8];
    let mut cursor = Cursor { first: 9, count: 9 };
    assert_eq!(rt; row::number(&slots, &cursor), 2);
    assert_eq!(rt; row::put(&mut slots, &mut cursor, 5), Err(Full));
    assert_eq!(rt; row::take(&mut slots, &mut cursor), Some(7));
    assert_eq!(rt; row::put(&mut slots, &mut cursor, 9), Ok(()));
    assert_eq!(rt; row::take(&mut slots, &mut cursor), Some(8));
    row::wipe(&mut cursor);
    assert_eq!(rt; row::oldest(&slots, &cursor), None);
}

#[test]
fn a_row_without_slots_is_full_and_empty(rt: HostRuntime) {
    let mut slots = [0u32; 0];
    let mut cursor = Cursor { first: 0, count: 0 };
    assert_eq!(rt; row::put(&mut slots, &mut cursor, 5), Err(Full));
    assert_eq!(rt; row::take(&mut slots, &mut cursor), None);
}

// Lends its slots to a tray, and states what they hold when the tray has ended.
fn lends(slots: &mut [u32], x: u32) -> Result<(), Full>
    ensures { slots.new ≡ (if is_ok result then slice_set slots.old 0 x else slots.old) }
{
    let mut tray = Tray::new(slots);
    tray.put(x)
}

#[test]
fn a_lender_has_its_slots_back(rt: HostRuntime) {
    let mut slots = [7, 8];
    assert_eq!(rt; lends(&mut slots, 42), Ok(()));
    assert_eq!(rt; slots, [42, 8]);
}

// The tray ends, and the caller reads its own place.
#[test]
fn a_tray_of_one_place(rt: HostRuntime) {
    let mut place = [0u32; 1];
    let mut tray = Tray::new(&mut place);
    assert_eq!(rt; tray.put(42), Ok(()));
    assert!(rt; tray.is_full());
    assert_eq!(rt; tray.put(43), Err(Full));
    assert_eq!(rt; tray.oldest(), Some(42));
    assert_eq!(rt; tray.take(), Some(42));
    assert_eq!(rt; tray.number(), 0);
    assert_eq!(rt; tray.put(44), Ok(()));
    tray.wipe();
    assert_eq!(rt; tray.take(), None);
    assert_eq!(rt; place[0], 44);
}
