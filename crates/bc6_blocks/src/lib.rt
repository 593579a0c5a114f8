// The pixels of a run of blocks of one format.
#![tactic(auto)]

ghost use Rattle.std.specs.Prelude.{◌≡◌, ◌*◌, ◌≤◌, length};
ghost use Rattle.bc6_blocks.specs.Run.{RunWritten, RunPainted, told};

use bc6_mode::extract_mode;
use bc6h_spec::Picture;
use bcn_spec::{Block, Refusal};
use bcn_util::BitStream;

// What the call over a run of blocks tells: how many blocks there are, and how many of their values are minus infinity.
#[derive(Clone, Copy, Debug, PartialEq, Eq)]
pub struct Shown {
    pub blocks: usize,
    pub infinite: usize,
}

// Each block in turn, its values behind those of the blocks before it; answers how many values are minus infinity.
fn paint_run(blocks: &[u8], signed: bool, count: usize, out: &mut [u16]) -> usize
    requires { (16 * count ≡ length blocks.now) × (48 * count ≤ length out.old) }
    ensures { RunWritten signed blocks.now count out.old result out.new }
{
    let mut infinite: usize = 0;
    for n in 0..count {
        let start = Block::SIZE * n;
        let end = start + Block::SIZE;
        let place = Picture::VALUES * n;
        let stream = BitStream::new(&blocks[start..end]);
        let mode = extract_mode(stream) as u8;
        let shown = bc6::show(mode, stream.lo, stream.hi, signed, &mut out[place..]);
        infinite += shown as usize;
    }
    infinite
}

// The values of all blocks, 48 a block, unsigned (format 0) or signed (format 1).
pub fn blocks_pixels(blocks: &[u8], format: u8, out: &mut [u16]) -> Result<Shown, Refusal>
    ensures { RunPainted blocks.now format out.old (told result) out.new }
{
    if 1 < format {
        return Err(Refusal::BadFormat);
    }
    if blocks.len() % Block::SIZE != 0 {
        return Err(Refusal::UnevenBlocks);
    }
    let count = blocks.len() / Block::SIZE;
    if out.len() / Picture::VALUES < count {
        return Err(Refusal::ShortOutput);
    }
    let infinite = paint_run(blocks, format == 1, count, out);
    Ok(Shown {
        blocks: count,
        infinite,
    })
}
