// The mode of a block, and what it says of the endpoints.
#![tactic(auto)]

ghost use Rattle.std.specs.Prelude.{◌≡◌, ◌≤◌, ◌<◌};
ghost use Rattle.bcn_util.specs.Stream.{number};
ghost use Rattle.bc6h_spec.specs.Fields.{mode_in};
ghost use Rattle.bc6_mode.specs.Modes.{ModesOf, bits_for};

use bcn_util::BitStream;

// The modes of the eight codes that end in two given bits, four bits a mode: of the code 000 above them lowest, of 111 highest.
fn modes_of(low2: u64) -> u64
    requires { low2 < 4 }
    ensures { ModesOf low2 result }
{
    match low2 {
        // 1 and 2 have no bits above these
        0b00 => 0x1111_1111,
        0b01 => 0x2222_2222,
        // 3 to 10
        0b10 => 0xA987_6543,
        // 11 to 14; of the codes 100 to 111 none has a mode
        _ => 0x0000_EDCB,
    }
}

// The mode number, 0 for a reserved mode.
pub fn extract_mode(stream: BitStream) -> usize
    ensures { result ≡ mode_in (number stream) }
{
    let code = stream.lo;
    let modes = modes_of(code % 4);
    ((modes >> (4 * (code / 4 % 8))) % 16) as usize
}

// What a mode says of its endpoints: the bits of the first, the bits of the others' red, green and blue, and whether the
// others are stored as differences from the first.
#[derive(Clone, Copy)]
pub struct ModeBits {
    pub a0: u8,
    pub r: u8,
    pub g: u8,
    pub b: u8,
    pub transformed: bool,
}

impl ModeBits {
    fn new(a0: u8, r: u8, g: u8, b: u8, transformed: bool) -> Self
        ensures { result ≡ record { a0 = a0; r = r; g = g; b = b; transformed = transformed } }
    {
        Self {
            a0,
            r,
            g,
            b,
            transformed,
        }
    }

    #[tactic(auto, unfolding(crate::specs::Modes::bits_for, bc6h_spec::specs::Layout::transformed))]
    pub fn of(mode: u8) -> Self
        requires { (1 ≤ mode) × (mode ≤ 14) }
        ensures { result ≡ bits_for mode }
    {
        match mode {
            1 => ModeBits::new(10, 5, 5, 5, true),
            2 => ModeBits::new(7, 6, 6, 6, true),
            3 => ModeBits::new(11, 5, 4, 4, true),
            4 => ModeBits::new(11, 4, 5, 4, true),
            5 => ModeBits::new(11, 4, 4, 5, true),
            6 => ModeBits::new(9, 5, 5, 5, true),
            7 => ModeBits::new(8, 6, 5, 5, true),
            8 => ModeBits::new(8, 5, 6, 5, true),
            9 => ModeBits::new(8, 5, 5, 6, true),
            10 => ModeBits::new(6, 6, 6, 6, false),
            11 => ModeBits::new(10, 10, 10, 10, false),
            12 => ModeBits::new(11, 9, 9, 9, true),
            13 => ModeBits::new(12, 8, 8, 8, true),
            _ => ModeBits::new(16, 4, 4, 4, true),
        }
    }
}
