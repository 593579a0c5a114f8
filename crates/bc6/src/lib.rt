// The pixels call: from a block's bits to the values that it shows, with no palette.
//
// The ends are worked out on i32, four of a channel in an array. Each format has instances of its own of what works them out and paints: the
// compiler then works them out with the format known, and they never go through memory.
#![tactic(auto)]

ghost use Rattle.std.specs.Prelude.{◌≡◌, ◌++◌, ◌≤◌, length, drop, replicate};
ghost use Rattle.bcn_util.specs.Stream.{number};
ghost use Rattle.bc6h_spec.specs.Fields.{mode_in, fields_at};
ghost use Rattle.bc6h_spec.specs.Picture.{picture_as};
ghost use Rattle.bc6h_spec.specs.Block.{format_number};
ghost use Rattle.bc6_paint.specs.Values.{PaintedAs};
ghost use Rattle.bc6.specs.Shown.{Picked, OnePicked, shown_of};
ghost use Rattle.bc6.specs.Call.{Painted, told};

use bc6_half::Half;
use bc6_mode::extract_mode;
use bc6h_spec::Picture;
use bcn_data::Subset2Map;
use bcn_spec::{Block, Refusal};
use bcn_util::{BitStream, Indexes};

// What a block of two regions says of its pixels: the map of the regions, and sixteen indices of three bits.
#[derive(Clone, Copy)]
struct Picks {
    map: u16,
    indices: u64,
}

fn two_picks(stream: BitStream) -> Picks
    ensures { Picked (number stream) result }
{
    let map = Subset2Map::of(bc6_runs::read_partition(stream) as usize);
    let indexes = Indexes::new_p2(3, stream.skip(82), map.fixup_index_2 as u64);
    Picks {
        map: map.subset_indexes,
        indices: indexes.uncompressed,
    }
}

// Sixteen indices of four bits.
fn one_indices(stream: BitStream) -> u64
    ensures { OnePicked (number stream) result }
{
    let indexes = Indexes::new_p1(4, stream.skip(65));
    indexes.uncompressed
}

// A block whose mode is not reserved, in one format.
fn show_as<const SIGNED: bool>(lo: u64, hi: u64, out: &mut [u16]) -> u16
    requires { (1 ≤ mode_in (number (record { lo = lo; hi = hi }))) × (48 ≤ length out.old) }
    ensures { PaintedAs (picture_as SIGNED (fields_at (format_number SIGNED) (mode_in (number (record { lo = lo; hi = hi }))) (number (record { lo = lo; hi = hi })))) out.old result out.new }
{
    let stream = BitStream::of(lo, hi);
    let ends = bc6_by_mode::ends::<SIGNED>(lo, hi);
    if lo % 4 != 3 {
        let picks = two_picks(stream);
        bc6_paint::paint::<SIGNED, 3>(ends, picks.map, picks.indices, out);
        return 0;
    }
    bc6_paint::paint::<SIGNED, 4>(ends, 0, one_indices(stream), out)
}

// Sixteen black pixels: 48 zeros.
fn write_black(out: &mut [u16])
    requires { 48 ≤ length out.old }
    ensures { out.new ≡ replicate 48 0 ++ drop 48 out.old }
{
    let black = Half::black();
    out[..Picture::VALUES].fill(black[0].pattern);
}

// What is shown of a block, from its mode and its bits: its values, and how many of them are minus infinity. (It takes the two words, and
// not a stream: a struct that is handed on is stored and read back.)
pub fn show(mode: u8, lo: u64, hi: u64, signed: bool, out: &mut [u16]) -> u16
    requires { (mode ≡ mode_in (number (record { lo = lo; hi = hi }))) × (48 ≤ length out.old) }
    ensures { PaintedAs (shown_of signed (number (record { lo = lo; hi = hi }))) out.old result out.new }
{
    if mode == 0 {
        write_black(out);
        return 0;
    }
    if signed {
        return show_as::<true>(lo, hi, out);
    }
    show_as::<false>(lo, hi, out)
}

// What the pixels call tells of a block: its mode, 0 for a reserved one, and how many of its values are minus infinity.
#[derive(Clone, Copy, Debug, PartialEq, Eq)]
pub struct Shown {
    pub mode: u8,
    pub infinite: u16,
}

// The 48 values of a block, unsigned (format 0) or signed (format 1).
pub fn block_pixels(block: &[u8], format: u8, out: &mut [u16]) -> Result<Shown, Refusal>
    ensures { Painted block.now format out.old (told result) out.new }
{
    if 1 < format {
        return Err(Refusal::BadFormat);
    }
    if block.len() != Block::SIZE {
        return Err(Refusal::BlockNot16);
    }
    if out.len() < Picture::VALUES {
        return Err(Refusal::ShortOutput);
    }
    let stream = BitStream::new(block);
    let mode = extract_mode(stream) as u8;
    let infinite = show(mode, stream.lo, stream.hi, format == 1, out);
    Ok(Shown { mode, infinite })
}
