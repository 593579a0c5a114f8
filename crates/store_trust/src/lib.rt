// Whether a block may be trusted: whether it meets by itself what the copies theorem asks, so that no other such block of its
// format, mode and partition shows its picture.
#![tactic(auto)]

ghost use Rattle.std.specs.Prelude.{◌≡◌, true, false, ◌+◌, ◌<◌, ◌≤◌, length};
ghost use Rattle.laws.specs.Pick.{both};
ghost use Rattle.laws.specs.Ranges.{InBits};
ghost use Rattle.laws.specs.Search.{some, repeated};
ghost use Rattle.bc6h_spec.specs.Regions.{region_of};
ghost use Rattle.bc6h_spec.specs.Fields.{Valid};
ghost use Rattle.bc6h_spec.specs.Picture.{is_signed};
ghost use Rattle.bc6h_spec.specs.Block.{pixels_of};
ghost use Rattle.bc6_colour.specs.Colours.{OfBits};
ghost use Rattle.store_copies.specs.Trust.{indexed_at, reaches, is_least, has_least, trusted};
ghost use Rattle.store_trust.specs.Ramp.{ramped_one, ramped_two, ramped, ramp_entry, entries_differ, region_passes, all_pass};
ghost use Rattle.store_trust.specs.Least.{least_of, end_count};

use bc6_colour::Colour;
use bc6_mode::ModeBits;
use bc6h_spec::Fields;
use bcn_data::Subset2Map;
use bcn_spec::Block;

// The region of a pixel.
fn region_of(fields: &Fields, k: usize) -> u8
    requires { (fields.now.partition < 32) × (k < 16) }
    ensures { result ≡ region_of fields.now.mode fields.now.partition k }
{
    if 10 < fields.mode {
        return 0;
    }
    let map = Subset2Map::of(fields.partition as usize);
    map.get_subset_index(k as u8)
}

// Pixel k lies in the region and has the index n.
fn is_at(fields: &Fields, region: u8, n: u8, k: usize) -> bool
    requires { (fields.now.partition < 32) × (k < 16) }
    ensures { result ≡ indexed_at fields.now region n k }
{
    region_of(fields, k) == region && fields.indices[k] == n
}

// Some pixel of the region has the index n.
fn reaches(fields: Fields, region: u8, n: u8) -> bool
    requires { fields.partition < 32 }
    ensures { result ≡ reaches fields region n }
{
    (0..16).any(|k| is_at(&fields, region, n, k))
}

// The block with the index k at pixel k: it shows its palette, in order.
fn ramped_one(block: &[u8]) -> [u8; 16]
    requires { length block.now ≡ 16 }
    ensures { result ≡ ramped_one block.now }
{
    let mut ramp = [0; 16];
    ramp[..8].copy_from_slice(&block[..8]);
    ramp[8..].copy_from_slice(&[
        block[8] % 2 + 0x10,
        0x32,
        0x54,
        0x76,
        0x98,
        0xBA,
        0xDC,
        0xFE,
    ]);
    ramp
}

// The block in partition 13, with the index k at pixel k of region 0 and 15 - k at pixel k of region 1: it shows one palette in
// order, and then the other from its end.
fn ramped_two(block: &[u8]) -> [u8; 16]
    requires { length block.now ≡ 16 }
    ensures { result ≡ ramped_two block.now }
{
    let mut ramp = [0; 16];
    ramp[..9].copy_from_slice(&block[..9]);
    ramp[9..].copy_from_slice(&[block[9] % 32 + 0xA0, 0x11, 0x8D, 0xF5, 0xEF, 0x72, 0x0A]);
    ramp
}

fn ramped(block: &[u8], two: bool) -> [u8; 16]
    requires { length block.now ≡ 16 }
    ensures { result ≡ ramped two block.now }
{
    if two {
        return ramped_two(block);
    }
    ramped_one(block)
}

// The palettes of a block, three values an entry.
fn palettes_of(block: &[u8], two: bool, format: u8) -> [u16; 48]
    requires { (length block.now ≡ 16) × (format ≤ 1) }
    ensures { result ≡ pixels_of (is_signed format) (ramped two block.now) }
{
    let ramp = ramped(block, two);
    let mut palettes = [0u16; 48];
    let _ = bc6::block_pixels(&ramp, format, &mut palettes);
    palettes
}

// Entry i of a channel is one of the entries before it. The palette starts at the pixel `first`.
fn is_repeated(palettes: &[u16; 48], first: usize, channel: usize, i: usize) -> bool
    requires { (channel < 3) × (first + i < 16) }
    ensures { result ≡ repeated (ramp_entry palettes.now first channel) i }
{
    let value = palettes[3 * (first + i) + channel];
    (first..first + i).any(|k| value == palettes[3 * k + channel])
}

fn entries_differ(palettes: &[u16; 48], first: usize, count: usize, channel: usize) -> bool
    requires { (channel < 3) × (first + count ≤ 16) }
    ensures { result ≡ entries_differ palettes.now first count channel }
{
    !(0..count).any(|i| is_repeated(palettes, first, channel, i))
}

fn some_channel_differs(palettes: &[u16; 48], first: usize, count: usize) -> bool
    requires { first + count ≤ 16 }
    ensures { result ≡ some (entries_differ palettes.now first count) 3 }
{
    (0..3).any(|channel| entries_differ(palettes, first, count, channel))
}

// A region reaches both ends of its palette of `count` entries, and a channel of it differs throughout.
fn region_passes(
    fields: Fields,
    palettes: &[u16; 48],
    region: u8,
    first: usize,
    count: usize,
) -> bool
    requires { (fields.partition < 32) × (1 ≤ count) × (first + count ≤ 16) }
    ensures { result ≡ region_passes fields palettes.now region first count }
{
    if !reaches(fields, region, 0) {
        return false;
    }
    if !reaches(fields, region, (count - 1) as u8) {
        return false;
    }
    some_channel_differs(palettes, first, count)
}

// Never inlined: so its frame lies beside that of the reading of the fields, not on top of it.
#[inline(never)]
fn all_pass(fields: Fields, palettes: &[u16; 48]) -> bool
    requires { fields.partition < 32 }
    ensures { result ≡ all_pass fields palettes.now }
{
    if 10 < fields.mode {
        return region_passes(fields, palettes, 0, 0, 16);
    }
    if !region_passes(fields, palettes, 0, 0, 8) {
        return false;
    }
    region_passes(fields, palettes, 1, 8, 8)
}

// The lowest number of `bits` bits: it shares its colour with its neighbour.
fn is_least(x: i32, bits: u8) -> bool
    requires { (0 < bits) × (bits ≤ 16) × InBits true bits x }
    ensures { result ≡ is_least bits x }
{
    let top = (1i32 << (bits - 1)) - 1;
    x < -top
}

fn some_channel_least(colour: Colour, bits: u8) -> bool
    requires { (0 < bits) × (bits ≤ 16) × OfBits true bits colour }
    ensures { result ≡ least_of bits colour }
{
    is_least(colour.r, bits) || is_least(colour.g, bits) || is_least(colour.b, bits)
}

fn end_count(fields: Fields) -> usize
    ensures { result ≡ end_count fields }
{
    if 10 < fields.mode {
        return 2;
    }
    4
}

// Some endpoint of a signed block is, after the transform, the lowest number.
fn has_least(fields: Fields) -> bool
    requires { Valid fields }
    ensures { result ≡ has_least fields }
{
    let bits = ModeBits::of(fields.mode);
    let first = Colour::first(fields, bits, true);
    if some_channel_least(first, bits.a0) {
        return true;
    }
    for e in 1..end_count(fields) {
        let other = first.other(fields, e, bits, true);
        if some_channel_least(other, bits.a0) {
            return true;
        }
    }
    false
}

fn is_ambiguous(fields: Fields, format: u8) -> bool
    requires { Valid fields }
    ensures { result ≡ both (is_signed format) (has_least fields) }
{
    if format != 1 {
        return false;
    }
    has_least(fields)
}

// Two trusted blocks of one format, mode and partition that show one picture are the same sixteen bytes. False for any other format
// or length.
pub fn is_trusted(block: &[u8], format: u8) -> bool
    ensures { result ≡ trusted format block.now }
{
    if 1 < format {
        return false;
    }
    if block.len() != Block::SIZE {
        return false;
    }
    let fields = bc6_fields::fields_of(block, format);
    let mode = fields.mode;
    if mode == 0 {
        return false;
    }
    if 13 < mode {
        return false;
    }
    if is_ambiguous(fields, format) {
        return false;
    }
    let palettes = palettes_of(block, mode <= 10, format);
    all_pass(fields, &palettes)
}
