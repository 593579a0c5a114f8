// A BC7 block and a run of them as bytes, for C and Rust.
ghost use Rattle.knotpasture.specs.Bc7.{Bc7Called, Bc7RunCalled};

use crate::{give_count, two_bytes};
use bcn_spec::Answer;

#[unsafe(no_mangle)]
pub extern "C" fn knot_bc7_pixels(block: &[u8], out: &mut [u8]) -> u32
    ensures { Bc7Called block.now out.old result out.new }
{
    match bc7::bc7_pixels(block, out) {
        Ok(shown) => two_bytes(Answer::DONE, shown.mode),
        Err(refusal) => refusal.number() as u32,
    }
}

#[unsafe(no_mangle)]
pub extern "C" fn knot_bc7_blocks_pixels(blocks: &[u8], out: &mut [u8], done: &mut usize) -> u64
    ensures { Bc7RunCalled blocks.now out.old result out.new done.new }
{
    give_count(bc7_blocks::bc7_blocks_pixels(blocks, out), done) as u64
}
