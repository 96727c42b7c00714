// The trays at their edges: none and one slot, the last slot number, left-over bytes, seams and the limit.
use crate::{copy_across, copy_in_annexes, put_packed};
use std::process::Abort;
use std::test::Fail;
use trays::{Annex, OpenTray, PackedTray, Slot, Tray, TrayFault};

// A slot that `n` tells from others.
fn slot(n: u32) -> Slot {
    Slot {
        time: n,
        position: 100,
        words: [n, 1, 2, 3],
    }
}

fn holds<T: Tray<Slot = Slot>>(rt: &impl Abort, tray: &T, at: u32, n: u32) {
    assert_eq!(rt; tray.look(at), Ok(slot(n)));
}

fn takes<T: Tray<Slot = Slot>>(rt: &impl Abort, tray: &mut T, at: u32, n: u32) {
    assert_eq!(rt; tray.put(at, slot(n)), Ok(()));
    holds(rt, tray, at, n);
}

fn refuses<T: Tray<Slot = Slot>>(rt: &impl Abort, tray: &mut T, at: u32) {
    assert_eq!(rt; tray.put(at, slot(9)), Err(TrayFault::NoSlot));
    assert_eq!(rt; tray.look(at), Err(TrayFault::NoSlot));
}

#[test]
fn fault_number(rt: HostRuntime) {
    assert_eq!(rt; TrayFault::NoSlot.number(), 31);
}

#[test]
fn default_slot(rt: HostRuntime) {
    let zeros = Slot {
        time: 0,
        position: 0,
        words: [0; 4],
    };
    assert_eq!(rt; Slot::default(), zeros);
}

#[test]
fn no_slot(rt: HostRuntime) {
    let mut none: [Slot; 0] = [];
    let mut bytes = [7u8; 23];
    let mut open = OpenTray::new(&mut none);
    assert_eq!(rt; open.capacity(), 0);
    refuses(&rt, &mut open, 0);
    let mut packed: PackedTray<Slot> = PackedTray::new(&mut bytes);
    assert_eq!(rt; packed.capacity(), 0);
    refuses(&rt, &mut packed, 0);
    let mut both = Annex::new(open, packed);
    assert_eq!(rt; both.capacity(), 0);
    refuses(&rt, &mut both, 0);
    assert_eq!(rt; bytes, [7; 23]);
}

#[test]
fn one_slot(rt: HostRuntime) {
    let mut slots = [slot(0)];
    let mut bytes = [7u8; 24];
    let mut open = OpenTray::new(&mut slots);
    assert_eq!(rt; open.capacity(), 1);
    takes(&rt, &mut open, 0, 1);
    refuses(&rt, &mut open, 1);
    let mut packed: PackedTray<Slot> = PackedTray::new(&mut bytes);
    assert_eq!(rt; packed.capacity(), 1);
    takes(&rt, &mut packed, 0, 2);
    refuses(&rt, &mut packed, 1);
    let mut both = Annex::new(open, packed);
    assert_eq!(rt; both.capacity(), 2);
    refuses(&rt, &mut both, 2);
    holds(&rt, &both, 0, 1);
    holds(&rt, &both, 1, 2);
}

#[test]
fn refusal_changes_nothing(rt: HostRuntime) {
    let mut slots = [slot(1), slot(2)];
    let mut bytes = [7u8; 50];
    let mut open = OpenTray::new(&mut slots);
    refuses(&rt, &mut open, 2);
    refuses(&rt, &mut open, u32::MAX);
    let mut packed: PackedTray<Slot> = PackedTray::new(&mut bytes);
    refuses(&rt, &mut packed, 2);
    refuses(&rt, &mut packed, u32::MAX);
    let mut both = Annex::new(open, packed);
    refuses(&rt, &mut both, 4);
    refuses(&rt, &mut both, u32::MAX);
    assert_eq!(rt; slots, [slot(1), slot(2)]);
    assert_eq!(rt; bytes, [7; 50]);
}

// Fills a packed tray of two slots.
fn fills(rt: &impl Abort, bytes: &mut [u8]) {
    let mut tray: PackedTray<Slot> = PackedTray::new(bytes);
    assert_eq!(rt; tray.capacity(), 2);
    takes(rt, &mut tray, 0, 1);
    takes(rt, &mut tray, 1, 2);
    refuses(rt, &mut tray, 2);
    holds(rt, &tray, 0, 1);
}

fn keeps_left_over(rt: &impl Abort, bytes: &mut [u8]) {
    fills(rt, bytes);
    for byte in bytes.iter().skip(48) {
        assert_eq!(rt; *byte, 7);
    }
}

#[test]
fn left_over_bytes(rt: HostRuntime) {
    for left in 1..24usize {
        let mut bytes = [7u8; 71];
        keeps_left_over(&rt, &mut bytes[0..48 + left]);
    }
}

#[test]
fn high_byte_first(rt: HostRuntime) {
    let slot = Slot {
        time: 0x01020304,
        position: 0x05060708,
        words: [0x090a0b0c, 0x0d0e0f10, 0x11121314, 0x15161718],
    };
    let mut bytes = [0; 24];
    assert_eq!(rt; put_packed(&mut bytes, 0, slot), Ok(()));
    assert_eq!(rt;
        bytes,
        [
            1, 2, 3, 4, 5, 6, 7, 8, 9, 10, 11, 12, 13, 14, 15, 16, 17, 18, 19, 20, 21, 22, 23, 24,
        ]
    );
}

// Slot numbers reach the right inner tray on both sides of each seam.
#[test]
fn seams(rt: HostRuntime) {
    let mut slots = [slot(0); 2];
    let mut bytes = [0u8; 30];
    let mut more = [slot(0); 2];
    let front = Annex::new(OpenTray::new(&mut slots), PackedTray::new(&mut bytes));
    let mut tray = Annex::new(front, OpenTray::new(&mut more));
    assert_eq!(rt; tray.capacity(), 5);
    for at in 0..5u32 {
        takes(&rt, &mut tray, at, at);
    }
    refuses(&rt, &mut tray, 5);
    let (front, last) = tray.into_parts();
    let (first, middle) = front.into_parts();
    holds(&rt, &first, 0, 0);
    holds(&rt, &first, 1, 1);
    holds(&rt, &middle, 0, 2);
    holds(&rt, &last, 0, 3);
    holds(&rt, &last, 1, 4);
}

// Copies from the third part to the second, and from there to the first.
#[test]
fn copies(rt: HostRuntime) {
    let mut slots = [slot(1)];
    let mut bytes = [0u8; 24];
    let mut more = [slot(3)];
    assert_eq!(rt;
        copy_in_annexes(&mut slots, &mut bytes, &mut more, 3, 0),
        Err(TrayFault::NoSlot)
    );
    assert_eq!(rt;
        copy_in_annexes(&mut slots, &mut bytes, &mut more, 0, 3),
        Err(TrayFault::NoSlot)
    );
    assert_eq!(rt;
        copy_in_annexes(&mut slots, &mut bytes, &mut more, 2, 1),
        Ok(())
    );
    let open = OpenTray::new(&mut slots);
    let (answer, first, second) = copy_across(open, PackedTray::new(&mut bytes), 1, 0);
    assert_eq!(rt; answer, Ok(()));
    holds(&rt, &first, 0, 3);
    holds(&rt, &second, 0, 3);
}

#[test]
fn past_the_limit(rt: HostRuntime) -> Result<(), Fail> {
    let mut slots = vec![in rt.alloc(); slot(5); 1_000_001]?;
    let mut one = [slot(6)];
    let mut tray = OpenTray::new(slots.as_mut_slice());
    assert_eq!(rt; tray.capacity(), 1_000_000);
    takes(&rt, &mut tray, 999_999, 1);
    refuses(&rt, &mut tray, 1_000_000);
    // an annex has no more slots either
    let mut both = Annex::new(tray, OpenTray::new(&mut one));
    assert_eq!(rt; both.capacity(), 1_000_000);
    takes(&rt, &mut both, 999_999, 2);
    refuses(&rt, &mut both, 1_000_000);
    assert_eq!(rt; one, [slot(6)]);
    assert_eq!(rt; slots.last(), Some(&slot(5)));
    Ok(())
}
