// The pixels call of BC7: a block as sixteen RGBA quadruples of bytes.
#![tactic(auto)]

ghost use Rattle.std.specs.Prelude.{◌≡◌};
ghost use Rattle.bc7_spec.specs.Fields.{mode_in};
ghost use Rattle.bc7.specs.Call.{Painted, told};

use bcn_spec::{Block, Refusal};
use bcn_util::BitStream;

// What a block shows: the mode is the specification's, 0 to 7, or 8 for a reserved block.
#[derive(Clone, Copy, Debug, PartialEq, Eq)]
pub struct Shown {
    pub mode: u8,
}

impl Shown {
    // The bytes that a block shows: four for each of sixteen pixels.
    pub const BYTES: usize = 64;
}

// The place of the lowest one bit of byte 0, or 8: a one is put above the byte.
fn mode_of(low: u64) -> u8
    ensures { result ≡ mode_in low }
{
    u64::trailing_zeros(low % 0x100 + 0x100) as u8
}

// The 64 bytes of a block.
pub fn bc7_pixels(block: &[u8], out: &mut [u8]) -> Result<Shown, Refusal>
    ensures { Painted block.now out.old (told result) out.new }
{
    if block.len() != Block::SIZE {
        return Err(Refusal::BlockNot16);
    }
    if out.len() < Shown::BYTES {
        return Err(Refusal::ShortOutput);
    }
    let stream = BitStream::new(block);
    let mode = mode_of(stream.lo);
    bc7_picture::show(mode, stream, out);
    Ok(Shown { mode })
}
