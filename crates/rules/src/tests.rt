//! The rules' own code on examples: registers, descriptions, guards and the numbers of refusals.
use crate::description::Description;
use crate::guard::{ARM, Guard, TRY};
use crate::refusal::Refusal;
use crate::register::{Register, UNLIMITED};
use crate::wiring::{Direction, Wiring};
use std::test::Fail;

#[test]
fn a_register_reads_as_one_word(rt: HostRuntime) {
    let granted = Register {
        owner: 1,
        limit: 2,
        time: 60,
    };
    assert_eq!(rt; granted.pack(), 0x0100203C);
    assert_eq!(rt; Register::from(0x0100203C), granted);
    assert_eq!(rt; Register::managers().pack(), 0x00FFFFFF);
    assert_eq!(rt; Register::from(0xFFABC001).limit, 0xABC);
}

#[test]
fn finite_figures_fall_and_unlimited_ones_stay(rt: HostRuntime) {
    let mut register = Register {
        owner: 1,
        limit: 1,
        time: UNLIMITED,
    };
    register = register.ticked();
    assert_eq!(rt; register.time, UNLIMITED);
    register = register.accessed();
    assert_eq!(rt; register.limit, 0);
    assert_eq!(rt;
        Register::managers().accessed().ticked(),
        Register::managers()
    );
}

// Three domains, where 0 and 1 are wired to a mailbox that is fixed at 2.
fn wired(fixed: u8, wired: u16) -> Wiring {
    Wiring {
        fixed,
        direction: Direction::OwnerSends,
        wired,
    }
}

fn takes(domains: u8, device: u8, untrusted: u8, mailboxes: &[Wiring]) -> bool {
    Description::accept(domains, device, untrusted, mailboxes).is_some()
}

#[test]
fn a_description_keeps_every_rule_or_is_refused(rt: HostRuntime) {
    let good = wired(2, 0b011);
    let eight = [good; 8];
    assert!(rt; takes(3, 0, 0, &[good]));
    assert!(rt; takes(3, 2, 1, &eight));
    assert!(rt; takes(16, 15, 1, &[wired(15, 0x7FFF)]));
    assert!(rt; !takes(1, 0, 0, &[wired(1, 0b001)]));
    assert!(rt; !takes(17, 0, 0, &[good]));
    assert!(rt; !takes(3, 0, 0, &[]));
    assert!(rt; !takes(3, 0, 0, &[good; 9]));
    assert!(rt; !takes(3, 1, 0, &[good]));
    assert!(rt; !takes(3, 1, 1, &[good]));
    assert!(rt; !takes(3, 1, 3, &[good]));
    assert!(rt; !takes(3, 0, 0, &[wired(0, 0b010)]));
    assert!(rt; !takes(3, 0, 0, &[wired(3, 0b011)]));
    assert!(rt; !takes(3, 0, 0, &[wired(2, 0b010)]));
    assert!(rt; !takes(3, 0, 0, &[wired(2, 0b111)]));
    assert!(rt; !takes(3, 0, 0, &[good, wired(2, 0b1011)]));
}

#[test]
fn a_description_says_who_is_wired_to_what(rt: HostRuntime) -> Result<(), Fail> {
    let Some(described) = Description::accept(3, 0, 0, &[wired(2, 0b011), wired(1, 0b101)]) else {
        return Err(Fail::new("refused"));
    };
    assert_eq!(rt; described.mailboxes, 2);
    assert_eq!(rt; described.wiring(1).fixed, 1);
    assert_eq!(rt; described.wiring(2).wired, 0);
    assert_eq!(rt; described.wiring(255).fixed, 0);
    Ok(())
}

#[test]
fn only_the_second_value_after_the_first_tries(rt: HostRuntime) {
    let fresh = Guard::fresh();
    assert_eq!(rt; fresh.written(TRY, true).result, 0x0000AAAA);
    let armed = fresh.written(ARM, true);
    assert_eq!(rt; armed.result, 0x0000AAAA);
    assert_eq!(rt; armed.written(TRY, true).result, 0x0000FFFF);
    assert_eq!(rt;
        armed.written(7, true).written(TRY, true).result,
        0x0000AAAA
    );
    let barred = armed.written(TRY, true).written(ARM, false);
    assert_eq!(rt; barred.result, 0x0000FFFF);
    assert_eq!(rt; barred.written(TRY, false).result, 0x0000AAAA);
}

#[test]
fn refusals_are_numbered(rt: HostRuntime) {
    assert_eq!(rt; u8::from(Refusal::UnknownCaller), 5);
    assert_eq!(rt; u8::from(Refusal::NotItsMailbox), 10);
    assert_eq!(rt; u8::from(Refusal::QueueEmpty), 17);
}
