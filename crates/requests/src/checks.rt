// What a telegram and a reply have in common: a lawful length, and a seal.
ghost use Rattle.std.specs.Prelude.{◌≡◌};
ghost use Rattle.requests.specs.Parsing.{length_checked, seal_checked};

use crate::TelegramFault;
use seals::sealed;

pub fn check_length(bytes: &[u8]) -> Result<(), TelegramFault>
    ensures { result ≡ length_checked bytes.now }
{
    match bytes.len() {
        2..=4096 => Ok(()),
        _ => Err(TelegramFault::Length),
    }
}

pub fn check_seal(bytes: &[u8]) -> Result<(), TelegramFault>
    ensures { result ≡ seal_checked bytes.now }
{
    if sealed(bytes) {
        Ok(())
    } else {
        Err(TelegramFault::Seal)
    }
}
