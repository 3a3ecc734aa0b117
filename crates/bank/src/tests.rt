//! The ring bank on examples: full, empty, round the end, and a number that no queue has.
use crate::bank::{Bank, Fault};
use crate::ring::Ring;

#[test]
fn the_seventeenth_put_is_refused(rt: HostRuntime) {
    let mut bank = Ring::new();
    for word in 0..16 {
        assert_eq!(rt; bank.put(3, word), Ok(()));
    }
    assert_eq!(rt; bank.put(3, 16), Err(Fault::Full));
    assert_eq!(rt; bank.number(3), 16);
    assert_eq!(rt; bank.number(4), 0);
    assert_eq!(rt; bank.take(3), Ok(0));
}

// Forty words pass a queue of sixteen places, and each comes out as it went in.
#[test]
fn words_go_round_the_end(rt: HostRuntime) {
    let mut bank = Ring::new();
    assert_eq!(rt; bank.put(0, 1000), Ok(()));
    for word in 0..40 {
        assert_eq!(rt; bank.put(0, word), Ok(()));
        assert_eq!(rt; bank.take(0), Ok(if word == 0 { 1000 } else { word - 1 }));
    }
    assert_eq!(rt; bank.take(0), Ok(39));
    assert_eq!(rt; bank.take(0), Err(Fault::Empty));
}

#[test]
fn a_wipe_empties_one_queue(rt: HostRuntime) {
    let mut bank = Ring::new();
    assert_eq!(rt; bank.put(8, 5), Ok(()));
    assert_eq!(rt; bank.put(9, 6), Ok(()));
    bank.wipe(8);
    assert_eq!(rt; bank.take(8), Err(Fault::Empty));
    assert_eq!(rt; bank.take(9), Ok(6));
}

#[test]
fn a_number_above_nine_is_no_queue(rt: HostRuntime) {
    let mut bank = Ring::new();
    assert_eq!(rt; bank.depth(9), 16);
    assert_eq!(rt; bank.depth(10), 0);
    assert_eq!(rt; bank.number(255), 0);
    assert_eq!(rt; bank.put(10, 5), Err(Fault::Full));
    assert_eq!(rt; bank.take(10), Err(Fault::Empty));
    bank.wipe(10);
    assert_eq!(rt; bank.number(10), 0);
}
