// Numbers in plain decimal: digits alone, with no sign and no zero before the first of them. So each
// number is written in one way.
ghost use Rattle.std.specs.Prelude.{◌≡◌, pos, negsuc, ◌≤ℤ◌, IfSome};
ghost use Rattle.wording.specs.Numbers.{Plain, Tenths};

// The number that a word writes.
#[tactic(auto, using(crate::proofs::Plain::signed_not_plain, crate::proofs::Plain::padded_not_plain, crate::proofs::Plain::plain_read))]
pub(crate) fn plain(word: &str) -> Option<u32>
    ensures { Plain word.now result }
{
    match word.as_bytes() {
        [b'+', ..] | [b'0', _, ..] => None,
        _ => word.parse().ok(),
    }
}

// The number from -600 to 600 that a word writes; those below zero, and no other, have a `-` in front.
pub(crate) fn tenths(word: &str) -> Option<i32>
    ensures exact { Tenths word.now result }
    ensures range { IfSome result (λ t. (negsuc 599 ≤ℤ t) × (t ≤ℤ pos 600)) }
{
    match word.strip_prefix('-') {
        Some(digits) => match plain(digits)? {
            number @ 1..=600 => Some(-(number as i32)),
            _ => None,
        },
        None => match plain(word)? {
            number @ 0..=600 => Some(number as i32),
            _ => None,
        },
    }
}
