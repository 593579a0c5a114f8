// A block, a run of blocks and a face of blocks as half-floats, for C and Rust. A face has three values a pixel, or four with alpha.
ghost use Rattle.std.specs.Prelude.{true, false, ◌+◌, ◌*◌};
ghost use Rattle.bc6_image.specs.Face.{ImagePainted};
ghost use Rattle.knotpasture.specs.Pixels.{PixelsCalled, RunCalled};

use crate::{give_count, two_bytes};
use bcn_spec::Answer;

#[unsafe(no_mangle)]
pub extern "C" fn knot_block_pixels(block: &[u8], format: u8, out: &mut [u16]) -> u32
    ensures { PixelsCalled block.now format out.old result out.new }
{
    match bc6::block_pixels(block, format, out) {
        Ok(shown) => two_bytes(Answer::DONE, shown.mode) + (shown.infinite as u32) * 0x10000,
        Err(refusal) => refusal.number() as u32,
    }
}

#[unsafe(no_mangle)]
pub extern "C" fn knot_blocks_pixels(
    blocks: &[u8],
    format: u8,
    out: &mut [u16],
    done: &mut usize,
    infinite: &mut usize,
) -> u32
    ensures { RunCalled blocks.now format out.old result out.new done.new infinite.new }
{
    let told = bc6_blocks::blocks_pixels(blocks, format, out);
    *infinite = told.map_or(0, |shown| shown.infinite);
    give_count(told.map(|shown| shown.blocks), done)
}

#[unsafe(no_mangle)]
pub extern "C" fn knot_face_pixels(
    blocks: &[u8],
    width: usize,
    height: usize,
    format: u8,
    out: &mut [u16],
    pitch: usize,
    infinite: &mut usize,
) -> u32
    ensures { ImagePainted false blocks.now width height format out.old pitch (record { answer = result; infinite = infinite.new }) out.new }
{
    give_count(
        bc6_image::face_pixels(blocks, width, height, format, out, pitch),
        infinite,
    )
}

#[unsafe(no_mangle)]
pub extern "C" fn knot_face_rgba(
    blocks: &[u8],
    width: usize,
    height: usize,
    format: u8,
    out: &mut [u16],
    pitch: usize,
    infinite: &mut usize,
) -> u32
    ensures { ImagePainted true blocks.now width height format out.old pitch (record { answer = result; infinite = infinite.new }) out.new }
{
    give_count(
        bc6_image::face_rgba(blocks, width, height, format, out, pitch),
        infinite,
    )
}
