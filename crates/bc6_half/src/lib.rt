// From numbers to half-floats: sign extension, magnitude, weights, interpolate, scale.
// Each step is worked out first and chosen after, so that no jump depends on the data.
#![tactic(auto)]

ghost use Rattle.std.specs.Prelude.{◌≡◌, true, ◌^◌, ◌<◌, ◌≤◌, pos, nat_abs, get_or};
ghost use Rattle.laws.specs.Pick.{pick};
ghost use Rattle.laws.specs.Ranges.{Below, Within, InBits};
ghost use Rattle.bc6h_spec.specs.Half.{sign_extend, keep, interpolated, finish_u, finish_s};
ghost use Rattle.bc6_half.specs.Halves.{weights_of, signed_number, half_of, black};

// The number that `bits` bits with the value `x` stand for in two's complement.
pub fn sign_extend(x: i32, bits: u8) -> i32
    requires { (0 < bits) × (bits ≤ 31) × Below (2 ^ bits) x }
    ensures { result ≡ sign_extend bits (nat_abs x) }
{
    let shift = 32 - bits;
    (x << shift) >> shift
}

// The lowest `bits` bits of `x`.
pub fn keep_bits(x: i32, bits: u8) -> i32
    requires { bits ≤ 30 }
    ensures { result ≡ pos (keep bits x) }
{
    x & ((1 << bits) - 1)
}

pub fn magnitude(x: i32) -> i32
    requires { Within 65536 x }
    ensures { result ≡ pos (nat_abs x) }
{
    if x < 0 {
        return -x;
    }
    x
}

// The weight of an index of so many bits. Of three: 0, 9, 18, 27, 37, 46, 55, 64. Of four: 0, 4, 9, 13, 17, 21, 26, 30, 34, 38, 43, 47, 51, 55, 60, 64.
pub fn weight<const BITS: u8>(i: u16) -> u16
    requires { ((3 ≤ BITS) × (BITS ≤ 4)) × (i < 2 ^ BITS) }
    ensures { (result ≡ get_or (weights_of BITS) i 0) × (result ≤ 64) }
{
    if BITS == 3 {
        (37 * i) >> 2
    } else {
        (17 * i + 2) >> 2
    }
}

// (a (64 − w) + b w + 32) div 64, rounded down. (64 − w is taken before it is widened, so that each product is of two numbers of 16 bits.)
pub fn interpolate(a: i32, b: i32, w: u16) -> i32
    requires { (Within 65536 a × Within 65536 b) × (w ≤ 64) }
    ensures { result ≡ interpolated a b (pos w) }
{
    (a * ((64 - w) as i32) + b * (w as i32) + 32) >> 6
}

// The lowest 16 bits of a number, in two's complement.
pub fn kept_16(x: i32) -> u16
    ensures { result ≡ keep 16 x }
{
    keep_bits(x, 16) as u16
}

// The number that 16 bits stand for.
pub fn number<const SIGNED: bool>(u: u16) -> i32
    ensures { result ≡ signed_number SIGNED u }
{
    if SIGNED {
        return sign_extend(u as i32, 16);
    }
    u as i32
}

// 31 x div 64.
fn pattern_unsigned(u: u16) -> u16
    ensures { result ≡ finish_u u }
{
    (((u as i32) * 31) >> 6) as u16
}

// 31 |x| div 32 and the sign. At −1 the scaled number is 0 already, so the sign is added below −1.
fn pattern_signed(u: u16) -> u16
    ensures { result ≡ finish_s (sign_extend 16 u) }
{
    let x = number::<true>(u);
    let t = ((magnitude(x) * 31) >> 5) as u16;
    let sign: u16 = if x < -1 { 0x8000 } else { 0 };
    sign + t
}

// A pattern, and whether it is minus infinity.
#[derive(Clone, Copy)]
pub struct Half {
    pub pattern: u16,
    pub infinite: bool,
}

impl Half {
    // The one number whose pattern is minus infinity, in signed format.
    const LOWEST: u16 = 0x8000;

    // The zero colour: the patterns of 0.
    pub fn black() -> [Half; 3]
        ensures { result ≡ black }
    {
        [finish::<false>(0); 3]
    }

    // 1 for minus infinity.
    pub fn counted(self) -> u16
        ensures { (result ≡ pick self.infinite 1 0) × (result ≤ 1) }
    {
        if self.infinite { 1 } else { 0 }
    }
}

// The pattern, and whether the number was −32768, which no number of the unsigned format is. (It goes through 16 bits, so that the compiler takes
// eight at a time from here on.)
pub fn finish<const SIGNED: bool>(x: i32) -> Half
    requires { InBits SIGNED 16 x }
    ensures { result ≡ half_of SIGNED x }
{
    let u = kept_16(x);
    if SIGNED {
        return Half {
            pattern: pattern_signed(u),
            infinite: u == Half::LOWEST,
        };
    }
    Half {
        pattern: pattern_unsigned(u),
        infinite: false,
    }
}

// In either format.
pub fn finish_unquantize(x: i32, signed: bool) -> Half
    requires { InBits signed 16 x }
    ensures { result ≡ half_of signed x }
{
    if signed {
        return finish::<true>(x);
    }
    finish::<false>(x)
}
