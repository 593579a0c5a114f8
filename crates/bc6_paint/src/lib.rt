// The values of a block. Each is worked out from its pixel's index and lies between two ends: ends 0 and 1 in region 0, ends 2 and 3 in region 1.
// There is no palette.
//
// A turn of the loop paints pixels k and k + 8, one channel of both after the other: of that the compiler makes vector code of eight pixels whose
// numbers stay in registers. Each format and each width of index has an instance of its own with one caller, into which it is inlined: the ends
// then never go through memory. Names that end in 8 are of pixel k + 8.
#![tactic(auto)]

ghost use Rattle.std.specs.Prelude.{◌≡◌, ◌+◌, ◌*◌, ◌/◌, ◌%◌, ◌^◌, ◌≤◌, ◌<◌, eqb, length};
ghost use Rattle.laws.specs.Bit.{bit};
ghost use Rattle.laws.specs.Made.{made};
ghost use Rattle.bc6_endpoints.specs.Ends.{end_in};
ghost use Rattle.bc6_paint.specs.Values.{packed_at, in_second, weight_in, region_mask, TurnOf, point_of, selected, PairPainted, block_value, BlockPainted};

use bc6_endpoints::Ends;
use bc6_half::{finish, interpolate, kept_16, number, weight};

// The first eight of sixteen indices of so many bits, pixel 0 lowest.
fn low<const BITS: u8>(word: u64) -> u32
    requires { BITS ≤ 4 }
    ensures { result ≡ word % 2 ^ (BITS * 8) }
{
    (word % (1u64 << (BITS * 8))) as u32
}

// The other eight.
fn high<const BITS: u8>(word: u64) -> u32
    requires { BITS ≤ 4 }
    ensures { result ≡ word / 2 ^ (BITS * 8) % 2 ^ (BITS * 8) }
{
    low::<BITS>(word >> (BITS * 8))
}

fn index<const BITS: u8>(word: u32, k: usize) -> u16
    requires { (BITS ≤ 4) × (k < 8) }
    ensures { (result ≡ packed_at BITS word k) × (result < 2 ^ BITS) }
{
    ((word >> ((BITS as usize) * k)) % (1u32 << BITS)) as u16
}

// All ones for a pixel of region 1, else 0.
fn region_mask(map: u16, pixel: usize) -> u16
    requires { pixel < 16 }
    ensures { result ≡ region_mask (eqb (bit map pixel) 1) }
{
    ((map >> pixel) % 2) * 0xFFFF
}

// What a turn's two pixels have: the mask of its region, and its weight.
#[derive(Clone, Copy)]
pub struct Turn {
    pub second: u16,
    pub second8: u16,
    pub w: u16,
    pub w8: u16,
}

// Turn k of a block, by the map of its regions and its indices of so many bits.
fn turn_at<const BITS: u8>(map: u16, word: u64, k: usize) -> Turn
    requires { ((3 ≤ BITS) × (BITS ≤ 4)) × (k < 8) }
    ensures { TurnOf (in_second map) (weight_in BITS word) k result }
{
    Turn {
        second: region_mask(map, k),
        second8: region_mask(map >> 8, k),
        w: weight::<BITS>(index::<BITS>(low::<BITS>(word), k)),
        w8: weight::<BITS>(index::<BITS>(high::<BITS>(word), k)),
    }
}

// The one of two numbers that is of the pixel's region, by its mask. The compiler would take an exclusive or of the two before the loop, and
// the ends out of the vector with it.
fn select(second: u16, a: u16, c: u16) -> u16
    ensures { result ≡ selected second a c }
{
    (a & (second ^ 0xFFFF)) | (c & second)
}

// The number at weight w: between a and b in region 0, between c and d in region 1.
fn point<const SIGNED: bool>(second: u16, a: u16, b: u16, c: u16, d: u16, w: u16) -> i32
    requires { w ≤ 64 }
    ensures { result ≡ point_of SIGNED (selected second a c) (selected second b d) w }
{
    interpolate(
        number::<SIGNED>(select(second, a, c)),
        number::<SIGNED>(select(second, b, d)),
        w,
    )
}

// A channel of a turn's pixels by its four ends: the values go to `at` and 24 behind it. It answers how many of the two are minus infinity. The
// ends go through 16 bits, so that the compiler takes eight at a time.
fn channel<const SIGNED: bool>(t: Turn, ends: [i32; 4], at: usize, out: &mut [u16]) -> u16
    requires { (t.w ≤ 64) × (t.w8 ≤ 64) × (at + 24 < length out.old) }
    ensures { PairPainted SIGNED t ends at out.old result out.new }
{
    let a = kept_16(ends[0]);
    let b = kept_16(ends[1]);
    let c = kept_16(ends[2]);
    let d = kept_16(ends[3]);
    let high = finish::<SIGNED>(point::<SIGNED>(t.second8, a, b, c, d, t.w8));
    out[at + 24] = high.pattern;
    let low = finish::<SIGNED>(point::<SIGNED>(t.second, a, b, c, d, t.w));
    out[at] = low.pattern;
    low.counted() + high.counted()
}

// The values of a block. Of one region it has indices of four bits and the map 0, and the number of its values that are minus infinity comes
// back. Of two it has indices of three bits, and nothing is counted: no number between ends of fewer than sixteen bits is minus infinity.
pub fn paint<const SIGNED: bool, const BITS: u8>(
    ends: Ends,
    map: u16,
    word: u64,
    out: &mut [u16],
) -> u16
    requires { ((3 ≤ BITS) × (BITS ≤ 4)) × (48 ≤ length out.old) }
    ensures { BlockPainted BITS (made (block_value SIGNED BITS (end_in ends) map word) 48) out.old result out.new }
{
    let red = ends.red;
    let green = ends.green;
    let blue = ends.blue;
    let mut infinite = 0u16;
    for k in 0..8usize {
        let t = turn_at::<BITS>(map, word, k);
        let at = 3 * k;
        let r = channel::<SIGNED>(t, red, at, out);
        let g = channel::<SIGNED>(t, green, at + 1, out);
        let b = channel::<SIGNED>(t, blue, at + 2, out);
        if BITS == 4 {
            infinite = infinite + r + g + b;
        }
    }
    infinite
}
