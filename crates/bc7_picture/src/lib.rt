// From a block's bits to the 64 bytes that it shows: a function for modes that are alike, with the places of their fields.
#![tactic(auto)]

ghost use Rattle.std.specs.Prelude.{◌≡◌, ◌++◌, ◌≤◌, ◌<◌, length, drop, replicate};
ghost use Rattle.laws.specs.Made.{made};
ghost use Rattle.bcn_util.specs.Stream.{number};
ghost use Rattle.bc7_spec.specs.Fields.{mode_in};
ghost use Rattle.bc7_spec.specs.Block.{byte_in};
ghost use Rattle.bc7_picture.specs.Shown.{BothSides, Placed, PBits, shown_of};

use bc7_ends::{ends_in, run};
use bc7_paint::{paint_one, paint_regions};
use bc7_weights::{weigh_one, weigh_three, weigh_two};
use bcn_data::{Subset2Map, Subset3Map};
use bcn_util::BitStream;

// Mode 1's two P-bits, one a region, as one an endpoint.
fn both_sides(first: u32, second: u32) -> u32
    requires { (first < 2) × (second < 2) }
    ensures { BothSides first second result }
{
    3 * first + 12 * second
}

// A mode of three regions: PARTITION bits name the map, and indexes of BITS bits start at bit AT. An endpoint has D P-bits, none or one.
fn show_three<
    const MODE: u64,
    const PARTITION: u64,
    const COLOUR: u32,
    const D: u32,
    const AT: u64,
    const BITS: u64,
>(s: BitStream, p: u32, out: &mut [u8])
    requires placed { Placed MODE 3 PARTITION COLOUR 0 D AT BITS }
    requires p_bits { PBits MODE 3 D (number s) p }
    requires room { 64 ≤ length out.old }
    ensures { out.new ≡ made (byte_in MODE (number s)) 64 ++ drop 64 out.old }
{
    let map = Subset3Map::row(run(s, MODE + 1, PARTITION) as usize);
    let ends = ends_in(s, MODE + 1 + PARTITION, 6, COLOUR, 0, p, D);
    let weights = weigh_three(s, AT, BITS, map.fixup_index_2, map.fixup_index_3);
    paint_regions(ends, map.ones, map.twos, weights, out);
}

// A mode of two regions: six bits name the map, and each endpoint has a P-bit.
fn show_two<const MODE: u64, const COLOUR: u32, const ALPHA: u32, const AT: u64, const BITS: u64>(
    s: BitStream,
    p: u32,
    out: &mut [u8],
)
    requires placed { Placed MODE 2 6 COLOUR ALPHA 1 AT BITS }
    requires p_bits { PBits MODE 2 1 (number s) p }
    requires room { 64 ≤ length out.old }
    ensures { out.new ≡ made (byte_in MODE (number s)) 64 ++ drop 64 out.old }
{
    let map = Subset2Map::row(run(s, MODE + 1, 6) as usize);
    let ends = ends_in(s, MODE + 7, 4, COLOUR, ALPHA, p, 1);
    let weights = weigh_two(s, AT, BITS, map.fixup_index_2);
    paint_regions(ends, map.subset_indexes, 0, weights, out);
}

fn show_4(s: BitStream, out: &mut [u8])
    requires { 64 ≤ length out.old }
    ensures { out.new ≡ made (byte_in 4 (number s)) 64 ++ drop 64 out.old }
{
    let ends = ends_in(s, 8, 2, 5, 6, 0, 0);
    let rotation = run(s, 5, 2);
    let first = weigh_one(s, 50, 2);
    let second = weigh_one(s, 81, 3);
    if run(s, 7, 1) == 0 {
        paint_one(ends, rotation, first, second, out);
    } else {
        paint_one(ends, rotation, second, first, out);
    }
}

fn show_5(s: BitStream, out: &mut [u8])
    requires { 64 ≤ length out.old }
    ensures { out.new ≡ made (byte_in 5 (number s)) 64 ++ drop 64 out.old }
{
    let ends = ends_in(s, 8, 2, 7, 8, 0, 0);
    let rotation = run(s, 6, 2);
    let first = weigh_one(s, 66, 2);
    let second = weigh_one(s, 97, 2);
    paint_one(ends, rotation, first, second, out);
}

fn show_6(s: BitStream, out: &mut [u8])
    requires { 64 ≤ length out.old }
    ensures { out.new ≡ made (byte_in 6 (number s)) 64 ++ drop 64 out.old }
{
    let ends = ends_in(s, 7, 2, 7, 7, run(s, 63, 2), 1);
    let weights = weigh_one(s, 65, 4);
    paint_one(ends, 0, weights, weights, out);
}

// 64 zeros.
fn write_black(out: &mut [u8])
    requires { 64 ≤ length out.old }
    ensures { out.new ≡ replicate 64 0 ++ drop 64 out.old }
{
    out[..64].fill(0);
}

// What is shown of a block, from its mode and its bits.
pub fn show(mode: u8, s: BitStream, out: &mut [u8])
    requires { (mode ≡ mode_in (number s)) × (64 ≤ length out.old) }
    ensures { out.new ≡ shown_of (number s) ++ drop 64 out.old }
{
    match mode {
        0 => show_three::<0, 4, 4, 1, 83, 3>(s, run(s, 77, 6), out),
        1 => show_two::<1, 6, 0, 82, 3>(s, both_sides(run(s, 80, 1), run(s, 81, 1)), out),
        2 => show_three::<2, 6, 5, 0, 99, 2>(s, 0, out),
        3 => show_two::<3, 7, 0, 98, 2>(s, run(s, 94, 4), out),
        4 => show_4(s, out),
        5 => show_5(s, out),
        6 => show_6(s, out),
        7 => show_two::<7, 5, 5, 98, 2>(s, run(s, 94, 4), out),
        _ => write_black(out),
    }
}
