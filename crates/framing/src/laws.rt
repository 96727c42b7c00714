// What holds of cutting and putting together.
ghost use Rattle.std.specs.Prelude.{◌≡◌, ℕ, ◌≤◌, List, ◌++◌, length};
ghost use Rattle.framing.specs.Frames.{Front, Front.whole, front, framed};

// Whatever is put after its length is cut as it was put, whatever follows it.
pub fn put_is_cut()
    ensures { (telegram rest : List ℕ) → length telegram ≤ 4096 → front (framed telegram ++ rest) ≡ whole telegram rest }
{}
