// The seal of a telegram: two running sums mod 255 (a Fletcher checksum), and the two bytes that bring
// both to 0. Any bytes followed by their seal are sealed.
#![tactic(auto)]

ghost use Rattle.std.specs.Prelude.{◌≡◌, ◌<◌};
ghost use Rattle.seals.specs.Fletcher.{sums_of, is_sealed, seal_bytes, SealLaws};

// Both running sums after the last byte.
fn sums(bytes: &[u8]) -> (u16, u16)
    ensures fold { result ≡ sums_of bytes.now }
    ensures small { (result.0 < 255) × (result.1 < 255) }
{
    let mut c0: u16 = 0;
    let mut c1: u16 = 0;
    for byte in bytes {
        c0 = (c0 + u16::from(*byte)) % 255;
        c1 = (c1 + c0) % 255;
    }
    (c0, c1)
}

// Whether both sums are 0 after the last byte.
pub fn sealed(bytes: &[u8]) -> bool
    ensures { result ≡ is_sealed bytes.now }
{
    sums(bytes) == (0, 0)
}

// The seal of these bytes.
pub fn seal_of(bytes: &[u8]) -> [u8; 2]
    ensures { result ≡ seal_bytes bytes.now }
{
    let (c0, c1) = sums(bytes);
    [(255 - (c0 + c1) % 255) as u8, c1 as u8]
}

// What a seal is good for, and four worked seals.
pub fn seal_laws()
    ensures { SealLaws }
{}
