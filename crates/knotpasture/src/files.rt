// DDS files, Portable Float Maps and OpenEXR files, for C and Rust.
ghost use Rattle.std.specs.Prelude.{◌≡◌, ◌^◌, ◌<◌, ◌≤◌};
ghost use Rattle.bcn_spec.specs.Bits.{size_limit};
ghost use Rattle.dds.specs.Dds.{bc6h_first, bc7_first, read_refusal_as, first_refusal};
ghost use Rattle.pfm.specs.File.{length_of};
ghost use Rattle.exr.specs.File.{length_of as exrLengthOf};
ghost use Rattle.knotpasture.specs.Files.{read_word, HeadCalled, ReadCalled, read_word_as, first_word_as, start_at, BlocksCalled, length_word, DdsWriteCalled, PfmWriteCalled, ExrWriteCalled};

use bcn_spec::Answer;
use dds::DdsRead;

// The number, the format and the size of a file that was read.
fn read_word(read: DdsRead) -> u64
    requires { (read.width ≤ size_limit) × (read.height ≤ size_limit) }
    ensures { result ≡ read_word read }
{
    (read.answer as u64)
        + (read.format as u64) * 0x100
        + (read.width as u64) * 0x10000
        + (read.height as u64) * 0x100000000
}

#[unsafe(no_mangle)]
pub extern "C" fn knot_dds_head(file: &[u8]) -> u64
    ensures { HeadCalled file.now result }
{
    read_word(dds::dds_head(file))
}

#[unsafe(no_mangle)]
pub extern "C" fn knot_dds_read(file: &[u8]) -> u64
    ensures { ReadCalled file.now result }
{
    read_word(dds::dds_read(file))
}

// Where in a file the blocks start, by what was read of it.
fn start_of(read: DdsRead) -> usize
    ensures { result ≡ start_at read.answer }
{
    if read.answer != Answer::DONE {
        return 0;
    }
    DdsRead::HEADER
}

#[unsafe(no_mangle)]
pub extern "C" fn knot_dds_blocks(file: &[u8]) -> usize
    ensures { BlocksCalled file.now result }
{
    start_of(dds::dds_read(file))
}

#[unsafe(no_mangle)]
pub extern "C" fn knot_bc7_dds_read(file: &[u8]) -> u64
    ensures { result ≡ read_word_as bc7_first file.now }
{
    read_word(dds::bc7_dds_read(file))
}

#[unsafe(no_mangle)]
pub extern "C" fn knot_bc7_dds_blocks(file: &[u8]) -> usize
    ensures { result ≡ start_at (read_refusal_as bc7_first file.now) }
{
    start_of(dds::bc7_dds_read(file))
}

#[unsafe(no_mangle)]
pub extern "C" fn knot_dds_first_level(file: &[u8]) -> u64
    ensures { result ≡ first_word_as bc6h_first file.now }
{
    read_word(dds::dds_first_level(file))
}

#[unsafe(no_mangle)]
pub extern "C" fn knot_dds_first_blocks(file: &[u8]) -> usize
    ensures { result ≡ start_at (first_refusal bc6h_first file.now) }
{
    start_of(dds::dds_first_level(file))
}

#[unsafe(no_mangle)]
pub extern "C" fn knot_bc7_dds_first_level(file: &[u8]) -> u64
    ensures { result ≡ first_word_as bc7_first file.now }
{
    read_word(dds::bc7_dds_first_level(file))
}

#[unsafe(no_mangle)]
pub extern "C" fn knot_bc7_dds_first_blocks(file: &[u8]) -> usize
    ensures { result ≡ start_at (first_refusal bc7_first file.now) }
{
    start_of(dds::bc7_dds_first_level(file))
}

// The number and the length of a file that was written.
fn length_word(answer: u8, length: usize) -> u64
    requires { length < 2 ^ 56 }
    ensures { result ≡ length_word answer length }
{
    (answer as u64) + (length as u64) * 0x100
}

#[unsafe(no_mangle)]
pub extern "C" fn knot_dds_write(
    blocks: &[u8],
    format: u8,
    width: u32,
    height: u32,
    out: &mut [u8],
) -> u64
    ensures { DdsWriteCalled blocks.now format width height out.old result out.new }
{
    let written = dds::dds_write(blocks, format, width, height, out);
    length_word(written.answer, written.length)
}

#[unsafe(no_mangle)]
pub extern "C" fn knot_pfm_write(
    blocks: &[u8],
    format: u8,
    width: u32,
    height: u32,
    out: &mut [u8],
) -> u64
    ensures { PfmWriteCalled blocks.now format width height out.old result out.new }
{
    let map = pfm::pfm_write(blocks, format, width, height, out);
    length_word(map.answer, map.length)
}

#[unsafe(no_mangle)]
pub extern "C" fn knot_pfm_length(width: u32, height: u32) -> usize
    ensures { result ≡ length_of width height }
{
    pfm::pfm_length(width, height)
}

#[unsafe(no_mangle)]
pub extern "C" fn knot_exr_write(
    blocks: &[u8],
    format: u8,
    width: u32,
    height: u32,
    out: &mut [u8],
) -> u64
    ensures { ExrWriteCalled blocks.now format width height out.old result out.new }
{
    let picture = exr::exr_write(blocks, width, height, format, out);
    length_word(picture.answer, picture.bytes)
}

#[unsafe(no_mangle)]
pub extern "C" fn knot_exr_length(width: u32, height: u32) -> usize
    ensures { result ≡ exrLengthOf width height }
{
    exr::exr_length(width, height)
}
