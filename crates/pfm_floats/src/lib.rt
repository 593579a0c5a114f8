// Half-float patterns as 32-bit floats, each exact, and as bytes.
#![tactic(auto)]

ghost use Rattle.std.specs.Prelude.{◌≡◌, ◌≤◌, ◌+◌, length};
ghost use Rattle.std.proofs.lemmas.List.Edits.{sets};
ghost use Rattle.laws.specs.Pick.{pick};
ghost use Rattle.pfm_floats.specs.Half.{float_of, rgb_of};
ghost use Rattle.pfm_floats.specs.Bytes.{word_bytes, rgb_bytes, Numbers};

// The three values of a pixel.
#[derive(Clone, Copy)]
pub struct Rgb {
    pub r: f32,
    pub g: f32,
    pub b: f32,
}

impl Rgb {
    // The floats of three patterns.
    pub fn of(red: u16, green: u16, blue: u16) -> Self
        ensures { result ≡ rgb_of red green blue }
    {
        Self {
            r: float_of(red),
            g: float_of(green),
            b: float_of(blue),
        }
    }
}

fn choose(first: bool, a: f32, b: f32) -> f32
    ensures { result ≡ pick first a b }
{
    if first { a } else { b }
}

// The float that a pattern stands for. Each kind is worked out and then one is chosen, so that several patterns are taken at once.
pub fn float_of(half: u16) -> f32
    ensures { result ≡ float_of half }
{
    let word = half as u32;
    let size = word % 0x8000;
    // the float's exponent is the pattern's and 112
    let normal = f32::from_bits(size * 0x2000 + 0x38000000);
    // 2^-24 for each digit
    let subnormal = size as f32 * f32::from_bits(0x33800000);
    let infinite = f32::from_bits(0x7F800000);
    let none = infinite - infinite;
    let high = choose(size < 0x7C00, normal, infinite);
    let number = choose(size < 0x400, subnormal, high);
    let magnitude = choose(size <= 0x7C00, number, none);
    // 1 or -1
    let sign = f32::from_bits(word / 0x8000 * 0x80000000 + 0x3F800000);
    magnitude * sign
}

// The four bytes of a word, the lowest first, at and after `at`.
fn put_word(word: u32, out: &mut [u8], at: usize)
    requires { at + 4 ≤ length out.old }
    ensures { out.new ≡ sets out.old at (word_bytes word) }
{
    out[at..at + 4].copy_from_slice(&word.to_le_bytes());
}

// The twelve bytes of three floats, at and after `at`.
pub fn put_rgb(p: Rgb, out: &mut [u8], at: usize)
    requires { (at + 12 ≤ length out.old) × Numbers p }
    ensures { out.new ≡ sets out.old at (rgb_bytes p) }
{
    put_word(f32::to_bits(p.r), out, at);
    put_word(f32::to_bits(p.g), out, at + 4);
    put_word(f32::to_bits(p.b), out, at + 8);
}
