// A face of blocks as rows of pixels, a pitch apart, with three values a pixel or, with alpha, four. Each block is decoded once.
#![tactic(auto)]

ghost use Rattle.std.specs.Prelude.{◌≡◌, true, false, ◌+◌, ◌*◌, ◌<◌, ◌≤◌, eqb, length};
ghost use Rattle.std.proofs.lemmas.List.Edits.{sets};
ghost use Rattle.bcn_spec.specs.Bits.{block_size};
ghost use Rattle.bc6h_spec.specs.Picture.{is_signed};
ghost use Rattle.bcn_spec.specs.Bits.{blocks_in};
ghost use Rattle.bc6_image.specs.Face.{lanes, image_refusal, told, ImagePainted};
ghost use Rattle.bcn_spec.specs.Refusals.{answer_of};
ghost use Rattle.bc6_image.specs.Stores.{pixel_of, block_row, block_put, FaceWritten, Fitting};

use bc6::block_pixels;
use bcn_spec::{Block, Refusal};

// The alpha of every pixel that `face_rgba` writes: 1.0.
pub const OPAQUE: u16 = 0x3C00;

// The values of a pixel.
fn lanes_of(alpha: bool) -> usize
    ensures { result ≡ lanes alpha }
{
    if alpha {
        return 4;
    }
    3
}

// Row `row` of a block's pixels without alpha, twelve values.
fn put_plain_row(values: &[u16; 48], row: usize, out: &mut [u16], at: usize)
    requires { (row < 4) × (at + 12 ≤ length out.old) }
    ensures { out.new ≡ sets out.old at (block_row false values.now row) }
{
    let from = 12 * row;
    out[at..at + 12].copy_from_slice(&values[from..from + 12]);
}

// Pixel k of a block with its alpha.
fn put_opaque(values: &[u16; 48], k: usize, out: &mut [u16], at: usize)
    requires { (k < 16) × (at + 4 ≤ length out.old) }
    ensures { out.new ≡ sets out.old at (pixel_of true values.now k) }
{
    out[at] = values[3 * k];
    out[at + 1] = values[3 * k + 1];
    out[at + 2] = values[3 * k + 2];
    out[at + 3] = OPAQUE;
}

// Row `row` of a block's pixels with alpha, sixteen values.
fn put_opaque_row(values: &[u16; 48], row: usize, out: &mut [u16], at: usize)
    requires { (row < 4) × (at + 16 ≤ length out.old) }
    ensures { out.new ≡ sets out.old at (block_row true values.now row) }
{
    for x in 0..4usize {
        let place = at + 4 * x;
        put_opaque(values, 4 * row + x, out, place);
    }
}

// Row `row` of a block's pixels. Each of its values is stored next to the one before it, so that the compiler stores several at once.
fn put_row(values: &[u16; 48], row: usize, alpha: bool, out: &mut [u16], at: usize)
    requires { (row < 4) × (at + lanes alpha * 4 ≤ length out.old) }
    ensures { out.new ≡ sets out.old at (block_row alpha values.now row) }
{
    if alpha {
        put_opaque_row(values, row, out, at);
        return;
    }
    put_plain_row(values, row, out, at);
}

// The sixteen pixels of a block, in four rows.
fn put_block(values: &[u16; 48], alpha: bool, out: &mut [u16], at: usize, pitch: usize)
    requires { at + (pitch * 3 + lanes alpha * 4) ≤ length out.old }
    ensures { out.new ≡ block_put alpha pitch values.now at out.old }
{
    for row in 0..4usize {
        let place = at + pitch * row;
        put_row(values, row, alpha, out, place);
    }
}

// All blocks; answers how many values are minus infinity.
fn paint_face(
    blocks: &[u8],
    width: usize,
    height: usize,
    format: u8,
    alpha: bool,
    out: &mut [u16],
    pitch: usize,
) -> usize
    requires { (format ≤ 1) × Fitting alpha width height pitch (length blocks.now) (length out.old) }
    ensures { FaceWritten (is_signed format) alpha blocks.now width pitch (blocks_in blocks.now) out.old result out.new }
{
    let step = lanes_of(alpha);
    let count = blocks.len() / Block::SIZE;
    let mut infinite: usize = 0;
    for n in 0..count {
        let start = Block::SIZE * n;
        let end = start + Block::SIZE;
        let mut values = [0u16; 48];
        let Ok(shown) = block_pixels(&blocks[start..end], format, &mut values) else {
            unreachable!()
        };
        let at = pitch * (4 * (n / width)) + step * (4 * (n % width));
        put_block(&values, alpha, out, at, pitch);
        infinite += shown.infinite as usize;
    }
    infinite
}

// The bytes are those of so many blocks.
fn holds_face(size: usize, width: usize, height: usize) -> bool
    ensures { result ≡ eqb size (block_size * (width * height)) }
{
    if width == 0 {
        return size == 0;
    }
    if size % Block::SIZE != 0 {
        return false;
    }
    let count = size / Block::SIZE;
    if count % width != 0 {
        return false;
    }
    count / width == height
}

// The first refusal that is met, or none.
fn check_face(
    size: usize,
    format: u8,
    width: usize,
    height: usize,
    alpha: bool,
    pitch: usize,
    room: usize,
) -> Result<(), Refusal>
    ensures { answer_of result ≡ image_refusal alpha size format width height pitch room }
{
    if 1 < format {
        return Err(Refusal::BadFormat);
    }
    if !holds_face(size, width, height) {
        return Err(Refusal::BlocksMisfit);
    }
    if size == 0 {
        return Ok(());
    }
    let row = lanes_of(alpha) * (4 * width);
    if pitch < row {
        return Err(Refusal::ShortOutput);
    }
    if room < row {
        return Err(Refusal::ShortOutput);
    }
    if (room - row) / pitch < 4 * height - 1 {
        return Err(Refusal::ShortOutput);
    }
    Ok(())
}

// A face in one of the layouts; answers how many values are minus infinity.
fn face_values(
    blocks: &[u8],
    width: usize,
    height: usize,
    format: u8,
    alpha: bool,
    out: &mut [u16],
    pitch: usize,
) -> Result<usize, Refusal>
    ensures { ImagePainted alpha blocks.now width height format out.old pitch (told result) out.new }
{
    check_face(blocks.len(), format, width, height, alpha, pitch, out.len())?;
    Ok(paint_face(blocks, width, height, format, alpha, out, pitch))
}

// The pixels of a face of width by height blocks, three values a pixel, `pitch` values from row to row; answers how many values
// are minus infinity.
pub fn face_pixels(
    blocks: &[u8],
    width: usize,
    height: usize,
    format: u8,
    out: &mut [u16],
    pitch: usize,
) -> Result<usize, Refusal>
    ensures { ImagePainted false blocks.now width height format out.old pitch (told result) out.new }
{
    face_values(blocks, width, height, format, false, out, pitch)
}

// The same with alpha, four values a pixel.
pub fn face_rgba(
    blocks: &[u8],
    width: usize,
    height: usize,
    format: u8,
    out: &mut [u16],
    pitch: usize,
) -> Result<usize, Refusal>
    ensures { ImagePainted true blocks.now width height format out.old pitch (told result) out.new }
{
    face_values(blocks, width, height, format, true, out, pitch)
}
