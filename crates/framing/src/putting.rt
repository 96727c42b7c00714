// Replies behind an output.
ghost use Rattle.std.specs.Prelude.{◌≡◌, ◌++◌, is_ok, if◌then◌else◌};
ghost use Rattle.framing.specs.Frames.{framed};

use std::alloc::AllocError;

// Puts a reply after its length behind what is there, or nothing for want of memory.
pub fn put(out: &mut Vec<u8>, reply: &[u8]) -> Result<(), AllocError>
    ensures { let old = out.old.items in out.new.items ≡ (if is_ok result then old ++ framed reply.now else old) }
{
    let before = out.len();
    let [_, _, _, _, a, b, c, d] = reply.len().to_be_bytes();
    out.extend_from_slice(&[a, b, c, d])?;
    match out.extend_from_slice(reply) {
        Ok(()) => Ok(()),
        Err(fault) => {
            out.truncate(before);
            Err(fault)
        }
    }
}
