// Tests of the trays, and proved calls that show what a user of trays learns: code over any tray, and
// what becomes of the memory that was lent.
#![tactic(auto)]

ghost use Rattle.std.specs.Prelude.{◌≡◌, ◌++◌, replicate, slice_set};
ghost use Rattle.trays.specs.Rows.{put_answer};
ghost use Rattle.trays.specs.Limit.{used, unused, joined};
ghost use Rattle.trays.specs.Packed.{packed_row, left_over, put_bytes};
ghost use Rattle.trays.specs.SlotBytes.{slot_bytes, slot_in};
ghost use Rattle.tray_tests.specs.Copied.{copied_answer, copied_row};

use trays::{Annex, OpenTray, PackedTray, Slot, Tray, TrayFault};

// A slot of zeros.
pub fn zero_slot() -> Slot
    ensures { result ≡ record { time = 0; position = 0; words = replicate 4 0 } }
{
    Slot::default()
}

// Copies one slot to another, in any tray.
pub fn copy_slot<T: Tray>(tray: &mut T, from: u32, to: u32) -> Result<(), TrayFault>
    ensures answer { result ≡ copied_answer (T.Tray.row tray.old) from to }
    ensures after { T.Tray.row tray.new ≡ copied_row (T.Tray.row tray.old) from to }
    ensures memory { T.Tray.memory tray.new ≡ T.Tray.memory tray.old }
{
    let slot = tray.look(from)?;
    tray.put(to, slot)
}

// One put into an open tray over these slots: every lent slot afterwards.
pub fn put_open(slots: &mut [Slot], at: u32, slot: Slot) -> Result<(), TrayFault>
    ensures answer { result ≡ put_answer (used slots.old) at }
    ensures slots { slots.new ≡ slice_set (used slots.old) at slot ++ unused slots.old }
{
    let mut tray = OpenTray::new(slots);
    tray.put(at, slot)
}

// One put into a packed tray over these bytes: every lent byte afterwards.
pub fn put_packed(bytes: &mut [u8], at: u32, slot: Slot) -> Result<(), TrayFault>
    ensures answer { result ≡ put_answer (packed_row 24 slot_in bytes.old) at }
    ensures bytes { bytes.new ≡ put_bytes 24 bytes.old at (slot_bytes slot) }
{
    let mut tray = PackedTray::new(bytes);
    tray.put(at, slot)
}

// A copy in an annex of any two trays, which then come back: their rows, and that they lie where they lay.
pub fn copy_across<A: Tray, B: Tray<Slot = A::Slot>>(
    first: A,
    second: B,
    from: u32,
    to: u32,
) -> (Result<(), TrayFault>, A, B)
    ensures answer { result.0 ≡ copied_answer (joined (A.Tray.row first) (B.Tray.row second)) from to }
    ensures after { joined (A.Tray.row result.1) (B.Tray.row result.2) ≡ copied_row (joined (A.Tray.row first) (B.Tray.row second)) from to }
    ensures first { A.Tray.memory result.1 ≡ A.Tray.memory first }
    ensures second { B.Tray.memory result.2 ≡ B.Tray.memory second }
{
    let mut tray = Annex::new(first, second);
    let answer = copy_slot(&mut tray, from, to);
    let (first, second) = tray.into_parts();
    (answer, first, second)
}

// A copy in an annex whose first part is an annex.
pub fn copy_in_annexes(
    slots: &mut [Slot],
    bytes: &mut [u8],
    more: &mut [Slot],
    from: u32,
    to: u32,
) -> Result<(), TrayFault>
    ensures { result ≡ copied_answer (joined (joined (used slots.old) (packed_row 24 slot_in bytes.old)) (used more.old)) from to }
{
    let front = Annex::new(OpenTray::new(slots), PackedTray::new(bytes));
    let mut tray = Annex::new(front, OpenTray::new(more));
    copy_slot(&mut tray, from, to)
}

#[cfg(test)]
mod tests;
