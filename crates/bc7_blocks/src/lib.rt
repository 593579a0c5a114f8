// The pixels of a run of BC7 blocks.
#![tactic(auto)]

ghost use Rattle.std.specs.Prelude.{◌≡◌, ◌++◌, ◌*◌, ◌≤◌, length, drop};
ghost use Rattle.bc7_blocks.specs.Run.{run_of, told, RunPainted};

use bc7::Shown;
use bcn_spec::{Block, Refusal};

// Each block in turn, its bytes behind those of the blocks before it.
fn paint_run(blocks: &[u8], count: usize, out: &mut [u8])
    requires { (16 * count ≡ length blocks.now) × (64 * count ≤ length out.old) }
    ensures { out.new ≡ run_of blocks.now count ++ drop (64 * count) out.old }
{
    for n in 0..count {
        let start = Block::SIZE * n;
        let end = start + Block::SIZE;
        let place = Shown::BYTES * n;
        let _ = bc7::bc7_pixels(&blocks[start..end], &mut out[place..]);
    }
}

// The bytes of all blocks, 64 a block; answers how many blocks there are.
pub fn bc7_blocks_pixels(blocks: &[u8], out: &mut [u8]) -> Result<usize, Refusal>
    ensures { RunPainted blocks.now out.old (told result) out.new }
{
    if blocks.len() % Block::SIZE != 0 {
        return Err(Refusal::UnevenBlocks);
    }
    let count = blocks.len() / Block::SIZE;
    if out.len() / Shown::BYTES < count {
        return Err(Refusal::ShortOutput);
    }
    paint_run(blocks, count, out);
    Ok(count)
}
