// The 64 bytes of a block, each worked out from its endpoints and its weight: no palette.
//
// The endpoints stand one after the other, red, green, blue, alpha of each: channel c of endpoint e is ends[4 * e + c].
#![tactic(auto)]

ghost use Rattle.std.specs.Prelude.{◌≡◌, ◌++◌, ◌≤◌, ◌<◌, eqb, length, drop};
ghost use Rattle.laws.specs.Pick.{pick};
ghost use Rattle.laws.specs.Bit.{bit};
ghost use Rattle.laws.specs.Made.{made};
ghost use Rattle.laws.specs.Ranges.{AllBelow};
ghost use Rattle.bc7_spec.specs.Bytes as spec;
ghost use Rattle.bc7_paint.specs.Shades.{region_by, shade_at, shade_byte, turned_to, solo_at, put, Paintable};

fn select<T: Copy>(second: bool, a: T, b: T) -> T
    ensures { result ≡ pick second b a }
{
    if second { b } else { a }
}

// (a (64 − w) + b w + 32) / 64: no step is above 16 bits.
fn between(a: u16, b: u16, w: u16) -> u8
    requires { (a < 256) × (b < 256) × (w < 65) }
    ensures { result ≡ spec.between a b w }
{
    ((a * (64 - w) + b * w + 32) / 64) as u8
}

// Whether pixel k lies in the region of a map.
fn in_region(map: u16, k: usize) -> bool
    requires { k < 16 }
    ensures { result ≡ eqb (bit map k) 1 }
{
    (map >> k) % 2 == 1
}

// A channel of a pixel that lies in region 1, in region 2 or, in neither, in region 0.
fn shade(ends: [u16; 24], c: usize, one: bool, two: bool, w: u16) -> u8
    requires { (c < 4) × (w < 65) × AllBelow 256 ends }
    ensures { result ≡ shade_at ends c (region_by one two) w }
{
    let a = select(two, select(one, ends[c], ends[c + 8]), ends[c + 16]);
    let b = select(two, select(one, ends[c + 4], ends[c + 12]), ends[c + 20]);
    between(a, b, w)
}

// What alpha shows after the rotation. (All three tests are made: a branch would stop the compiler from vectorising the loop.)
fn fourth(rotation: u32, r: u8, g: u8, b: u8, a: u8) -> u8
    ensures { result ≡ turned_to rotation r g b a }
{
    select(
        rotation == 3,
        select(rotation == 2, select(rotation == 1, a, r), g),
        b,
    )
}

// A block of two or three regions: two pixels a turn, k and l. `ones` and `twos` are the maps of regions 1 and 2. (What is left of the
// maps is carried from turn to turn, which keeps the compiler from working out a channel of all sixteen pixels at a time, whose
// vectors would go to the stack; of a turn it makes one vector, the eight bytes in the order in which they stand.)
pub fn paint_regions(ends: [u16; 24], ones: u16, twos: u16, weights: [u16; 16], out: &mut [u8])
    requires { Paintable ends weights weights 0 out.old }
    ensures { out.new ≡ made (shade_byte ends ones twos 0 weights weights) 64 ++ drop 64 out.old }
{
    let mut ones_left = ones;
    let mut twos_left = twos;
    for p in 0..8usize {
        let k = 2 * p;
        let l = k + 1;
        let one_k = in_region(ones_left, 0);
        let two_k = in_region(twos_left, 0);
        let one_l = in_region(ones_left, 1);
        let two_l = in_region(twos_left, 1);
        ones_left = ones_left >> 2;
        twos_left = twos_left >> 2;
        let weight_k = weights[k];
        let weight_l = weights[l];
        let at_k = 4 * k;
        out[at_k] = shade(ends, 0, one_k, two_k, weight_k);
        out[at_k + 1] = shade(ends, 1, one_k, two_k, weight_k);
        out[at_k + 2] = shade(ends, 2, one_k, two_k, weight_k);
        out[at_k + 3] = shade(ends, 3, one_k, two_k, weight_k);
        let at_l = 4 * l;
        out[at_l] = shade(ends, 0, one_l, two_l, weight_l);
        out[at_l + 1] = shade(ends, 1, one_l, two_l, weight_l);
        out[at_l + 2] = shade(ends, 2, one_l, two_l, weight_l);
        out[at_l + 3] = shade(ends, 3, one_l, two_l, weight_l);
    }
}

// The bytes of pixel k in a block of one region, from its weights: alpha has one of its own, and channels may be turned.
fn paint_pixel(ends: [u16; 24], rotation: u32, colour: u16, alpha: u16, k: usize, out: &mut [u8])
    requires { (k < 16) × (colour < 65) × (alpha < 65) × (rotation < 4) × AllBelow 256 ends × (64 ≤ length out.old) }
    ensures { out.new ≡ put (solo_at ends rotation colour alpha) k out.old }
{
    let r = shade(ends, 0, false, false, colour);
    let g = shade(ends, 1, false, false, colour);
    let b = shade(ends, 2, false, false, colour);
    let a = shade(ends, 3, false, false, alpha);
    let at = 4 * k;
    out[at] = select(rotation == 1, r, a);
    out[at + 1] = select(rotation == 2, g, a);
    out[at + 2] = select(rotation == 3, b, a);
    out[at + 3] = fourth(rotation, r, g, b, a);
}

// A block of one region: pixels k and l, which is k + 8, in a turn. (One pixel in each of sixteen turns takes more of the stack.)
pub fn paint_one(
    ends: [u16; 24],
    rotation: u32,
    colours: [u16; 16],
    alphas: [u16; 16],
    out: &mut [u8],
)
    requires { Paintable ends colours alphas rotation out.old }
    ensures { out.new ≡ made (shade_byte ends 0 0 rotation colours alphas) 64 ++ drop 64 out.old }
{
    for k in 0..8usize {
        paint_pixel(ends, rotation, colours[k], alphas[k], k, out);
        let l = k + 8;
        paint_pixel(ends, rotation, colours[l], alphas[l], l, out);
    }
}
