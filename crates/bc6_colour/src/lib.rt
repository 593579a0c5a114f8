// From a field record to colours of three numbers: the endpoints by sign extension and transform, and what they are unquantised to.
// Each step is worked out first and chosen after, so that no jump depends on the data.
#![tactic(auto)]

ghost use Rattle.std.specs.Prelude.{◌≡◌, true, ◌+◌, ◌-◌, ◌^◌, ◌<◌, ◌≤◌, pos, nat_abs};
ghost use Rattle.laws.specs.Ranges.{Below, Within, InBits};
ghost use Rattle.bc6h_spec.specs.Fields.{Valid};
ghost use Rattle.bc6h_spec.specs.Half.{transform, unquantize_u, unquantize_m, unquantized};
ghost use Rattle.bc6h_spec.specs.Picture.{first_end, delta, other_end};
ghost use Rattle.bc6_mode.specs.Modes.{bits_for};
ghost use Rattle.bc6_colour.specs.Colours.{end_of, unquantized_of, OfBits};

use bc6_half::{keep_bits, magnitude, sign_extend};
use bc6_mode::ModeBits;
use bc6h_spec::Fields;

// The first endpoint `a` is added to the delta `d`, `bits` bits are kept, and in signed format the sign is extended again.
pub fn transform_one(a: i32, d: i32, bits: u8, signed: bool) -> i32
    requires { (0 < bits) × (bits ≤ 16) × (Within 65536 a × Within 65536 d) }
    ensures { result ≡ transform signed bits a d }
{
    let sum = keep_bits(a + d, bits);
    if signed { sign_extend(sum, bits) } else { sum }
}

// Below fifteen bits, as a sum: the place of c, half a step above it where c is not 0, and another half less one at the highest.
pub fn unquantize_narrow(c: i32, bits: u8) -> i32
    requires { (0 < bits) × (bits < 15) × Below (2 ^ bits) c }
    ensures { result ≡ pos (unquantize_u bits (nat_abs c)) }
{
    let some = (c + ((1 << bits) - 1)) >> bits;
    let top = (c + 1) >> bits;
    (c << (16 - bits)) + ((some + top) << (15 - bits)) - top
}

fn unquantize_unsigned(c: i32, bits: u8) -> i32
    requires { (0 < bits) × (bits ≤ 16) × Below (2 ^ bits) c }
    ensures { result ≡ pos (unquantize_u bits (nat_abs c)) }
{
    if 15 <= bits {
        return c;
    }
    unquantize_narrow(c, bits)
}

fn unquantize_magnitude(m: i32, bits: u8) -> i32
    requires { (0 < bits) × (bits ≤ 15) × Below (2 ^ (bits - 1) + 1) m }
    ensures { result ≡ pos (unquantize_m bits (nat_abs m)) }
{
    let mid = ((m << 15) + 0x4000) >> (bits - 1);
    let top = (1 << (bits - 1)) - 1;
    if m == 0 {
        return 0;
    }
    if top <= m {
        return 0x7FFF;
    }
    mid
}

// Below sixteen bits, in signed format.
pub fn unquantize_signed(c: i32, bits: u8) -> i32
    requires { (0 < bits) × (bits ≤ 15) × InBits true bits c }
    ensures { result ≡ unquantized true bits c }
{
    let t = unquantize_magnitude(magnitude(c), bits);
    if c < 0 {
        return -t;
    }
    t
}

fn unquantize(c: i32, bits: u8, signed: bool) -> i32
    requires { (0 < bits) × (bits ≤ 16) × InBits signed bits c }
    ensures { result ≡ unquantized signed bits c }
{
    if !signed {
        return unquantize_unsigned(c, bits);
    }
    if 16 <= bits {
        return c;
    }
    unquantize_signed(c, bits)
}

// The first endpoint from its stored field.
fn first_end(field: u16, bits: u8, signed: bool) -> i32
    requires { (0 < bits) × (bits ≤ 16) × (field < 2 ^ bits) }
    ensures { result ≡ first_end signed bits field }
{
    let x = field as i32;
    if signed { sign_extend(x, bits) } else { x }
}

// Another endpoint's stored field as a number.
fn delta_of(field: u16, width: u8, moved: bool, signed: bool) -> i32
    requires { (0 < width) × (width ≤ 16) × (field < 2 ^ width) }
    ensures { result ≡ delta signed moved width field }
{
    let x = field as i32;
    if signed {
        return sign_extend(x, width);
    }
    if moved {
        return sign_extend(x, width);
    }
    x
}

// Another endpoint, from the first one and its stored field, with the format known when it is compiled: the channels of a block then share one test.
fn end_at<const SIGNED: bool>(a: i32, field: u16, width: u8, bits: u8, moved: bool) -> i32
    requires { ((0 < bits) × (bits ≤ 16)) × ((0 < width) × (width ≤ 16) × (field < 2 ^ width)) × Within 65536 a }
    ensures { result ≡ other_end SIGNED moved bits width a field }
{
    let d = delta_of(field, width, moved, SIGNED);
    if moved {
        return transform_one(a, d, bits, SIGNED);
    }
    d
}

// The same in either format.
fn other_end(a: i32, field: u16, width: u8, bits: u8, moved: bool, signed: bool) -> i32
    requires { ((0 < bits) × (bits ≤ 16)) × ((0 < width) × (width ≤ 16) × (field < 2 ^ width)) × Within 65536 a }
    ensures { result ≡ other_end signed moved bits width a field }
{
    if signed {
        end_at::<true>(a, field, width, bits, moved)
    } else {
        end_at::<false>(a, field, width, bits, moved)
    }
}

// A colour of three numbers, which may be below zero.
#[derive(Clone, Copy)]
pub struct Colour {
    pub r: i32,
    pub g: i32,
    pub b: i32,
}

impl Colour {
    // The first endpoint of a block.
    pub fn first(f: Fields, bits: ModeBits, signed: bool) -> Self
        requires { Valid f × (bits ≡ bits_for f.mode) }
        ensures { result ≡ end_of signed f 0 }
    {
        let ends = f.endpoints;
        let a0 = bits.a0;
        Colour {
            r: first_end(ends[0], a0, signed),
            g: first_end(ends[1], a0, signed),
            b: first_end(ends[2], a0, signed),
        }
    }

    // Endpoint e of a block, where `self` is the first.
    pub fn other(self, f: Fields, e: usize, bits: ModeBits, signed: bool) -> Self
        requires { (Valid f × (bits ≡ bits_for f.mode)) × ((self ≡ end_of signed f 0) × (1 ≤ e) × (e < 4)) }
        ensures { result ≡ end_of signed f e }
    {
        let ends = f.endpoints;
        let a0 = bits.a0;
        let moved = bits.transformed;
        let at = 3 * e;
        Colour {
            r: other_end(self.r, ends[at], bits.r, a0, moved, signed),
            g: other_end(self.g, ends[at + 1], bits.g, a0, moved, signed),
            b: other_end(self.b, ends[at + 2], bits.b, a0, moved, signed),
        }
    }

    pub fn unquantize(self, bits: u8, signed: bool) -> Self
        requires { (0 < bits) × (bits ≤ 16) × OfBits signed bits self }
        ensures { result ≡ unquantized_of signed bits self }
    {
        Colour {
            r: unquantize(self.r, bits, signed),
            g: unquantize(self.g, bits, signed),
            b: unquantize(self.b, bits, signed),
        }
    }
}
