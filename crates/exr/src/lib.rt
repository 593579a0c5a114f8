// OpenEXR files: a picture of blocks as half-floats, scan lines from the top down, no compression.
#![tactic(auto)]

ghost use Rattle.std.specs.Prelude.{◌≡◌, ◌++◌, ◌<◌, ◌≤◌, ◌+◌, ◌*◌, length, drop};
ghost use Rattle.std.proofs.lemmas.List.Edits.{sets};
ghost use Rattle.laws.specs.Bit.{low_bytes};
ghost use Rattle.bcn_spec.specs.Bits.{block_size, size_limit, most_across};
ghost use Rattle.exr.specs.Bands.{quarter_of, channel_sets, block_sets, head_sets, band_at, bands_of};
ghost use Rattle.exr.specs.File.{head_of, length_of, write_refusal, PictureWritten};

use bc6::block_pixels;
use bcn_spec::{Answer, Block};
use exr_header::{front_length, put_front};
use pfm::{refusal_for, size_even};
use text::put;

// What the writing call answers: the file's bytes, 0 on a refusal.
#[derive(Clone, Copy)]
pub struct ExrWritten {
    pub answer: u8,
    pub bytes: usize,
}

impl ExrWritten {
    pub fn refused(answer: u8) -> Self
        ensures { result ≡ record { answer = answer; bytes = 0 } }
    {
        Self { answer, bytes: 0 }
    }
}

// A pattern, its low byte first.
pub fn put_half(half: u16, out: &mut [u8], at: usize)
    requires { at + 2 ≤ length out.old }
    ensures { out.new ≡ sets out.old at (low_bytes 2 half) }
{
    out[at..at + 2].copy_from_slice(&half.to_le_bytes());
}

// One channel of the four pixels of a row of a block.
fn put_quarter(values: &[u16; 48], channel: usize, row: usize, out: &mut [u8], at: usize)
    requires { (channel < 3) × (row < 4) × (at + 8 ≤ length out.old) }
    ensures { out.new ≡ sets out.old at (quarter_of values.now channel row) }
{
    let first = values[3 * (4 * row) + channel];
    let second = values[3 * (4 * row + 1) + channel];
    let third = values[3 * (4 * row + 2) + channel];
    let fourth = values[3 * (4 * row + 3) + channel];
    put_half(first, out, at);
    put_half(second, out, at + 2);
    put_half(third, out, at + 4);
    put_half(fourth, out, at + 6);
}

// One channel of the four rows of a block, the highest first, each `stride` bytes behind the one before.
fn put_channel(values: &[u16; 48], channel: usize, stride: usize, out: &mut [u8], at: usize)
    requires { (channel < 3) × (stride ≤ 8 + 24 * most_across) × (at + 3 * stride + 8 ≤ length out.old) }
    ensures { out.new ≡ channel_sets values.now channel stride out.old at }
{
    put_quarter(values, channel, 0, out, at);
    put_quarter(values, channel, 1, out, at + stride);
    put_quarter(values, channel, 2, out, at + 2 * stride);
    put_quarter(values, channel, 3, out, at + 3 * stride);
}

// A block's blue, green and red values: in each line all blue values come first, then all green ones, then all red ones.
fn put_block(values: &[u16; 48], across: usize, out: &mut [u8], column: usize)
    requires { (across ≤ most_across) × (column < across) × (32 + 96 * across ≤ length out.old) }
    ensures { out.new ≡ block_sets values.now across out.old column }
{
    let stride = 8 + 24 * across;
    let blue = 8 + 8 * column;
    put_channel(values, 2, stride, out, blue);
    put_channel(values, 1, stride, out, blue + 8 * across);
    put_channel(values, 0, stride, out, blue + 2 * (8 * across));
}

// What stands before the values of a line: its number, and how many bytes they have.
pub fn put_head(width: usize, y: usize, out: &mut [u8], at: usize)
    requires { (width ≤ size_limit) × (at + 8 ≤ length out.old) }
    ensures { out.new ≡ sets out.old at (head_of width y) }
{
    put(out, at, &y.to_le_bytes()[..4]);
    put(out, at + 4, &(6 * width as u32).to_le_bytes());
}

// The heads of four lines.
fn put_heads(across: usize, y: usize, out: &mut [u8], at: usize)
    requires { (across ≤ most_across) × (y ≤ size_limit) × (at + 3 * (8 + 24 * across) + 8 ≤ length out.old) }
    ensures { out.new ≡ head_sets across y out.old at }
{
    let width = 4 * across;
    let stride = 8 + 24 * across;
    put_head(width, y, out, at);
    put_head(width, y + 1, out, at + stride);
    put_head(width, y + 2, out, at + 2 * stride);
    put_head(width, y + 3, out, at + 3 * stride);
}

// A row of blocks, from block `first` on, as four lines from line `y` on: each block is decoded once.
pub fn put_band(blocks: &[u8], format: u8, first: usize, across: usize, y: usize, out: &mut [u8])
    requires format_bound { (format ≤ 1) × (across ≤ most_across) × (y ≤ size_limit) }
    requires across_in_bounds { (block_size * (first + across) ≤ length blocks.now) × (32 + 96 * across ≤ length out.old) }
    ensures { out.new ≡ band_at blocks.now format first across y ++ drop (32 + 96 * across) out.old }
{
    for column in 0..across {
        let start = Block::SIZE * (first + column);
        let end = start + Block::SIZE;
        let mut values = [0u16; 48];
        let _ = block_pixels(&blocks[start..end], format, &mut values);
        put_block(&values, across, out, column);
    }
    put_heads(across, y, out, 0);
}

// All rows of blocks, from the top down.
fn put_bands(blocks: &[u8], format: u8, across: usize, down: usize, out: &mut [u8])
    requires format_bound { (format ≤ 1) × (across ≤ most_across) × (down ≤ most_across) }
    requires down_in_bounds { (block_size * (across * down) ≤ length blocks.now) × ((32 + 96 * across) * down ≤ length out.old) }
    ensures { out.new ≡ bands_of blocks.now format across down ++ drop ((32 + 96 * across) * down) out.old }
{
    for n in 0..down {
        let first = across * n;
        let at = (32 + 96 * across) * n;
        put_band(blocks, format, first, across, 4 * n, &mut out[at..]);
    }
}

// The length of the file of a size, 0 where the size is refused.
pub fn exr_length(width: u32, height: u32) -> usize
    ensures { result ≡ length_of width height }
{
    if !size_even(width, height) {
        return 0;
    }
    front_length(height) + (8 + 6 * width as usize) * height as usize
}

// The first refusal of the writing call that is met, or done.
fn write_refusal(size: usize, format: u8, width: u32, height: u32, room: usize) -> u8
    ensures { result ≡ write_refusal size format width height room }
{
    let whole = exr_length(width, height);
    refusal_for(whole, size, format, width, height, room)
}

// A picture of blocks in row order as an OpenEXR file.
#[tactic(auto, using(crate::proofs::Calls::told_refused))]
pub fn exr_write(blocks: &[u8], width: u32, height: u32, format: u8, out: &mut [u8]) -> ExrWritten
    ensures { PictureWritten blocks.now format width height out.old result out.new }
{
    let answer = write_refusal(blocks.len(), format, width, height, out.len());
    if answer != Answer::DONE {
        return ExrWritten::refused(answer);
    }
    let across = (width / 4) as usize;
    let down = (height / 4) as usize;
    let at = put_front(width, height, out);
    put_bands(blocks, format, across, down, &mut out[at..]);
    ExrWritten {
        answer,
        bytes: exr_length(width, height),
    }
}
