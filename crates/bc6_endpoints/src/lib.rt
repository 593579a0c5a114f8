// A channel's ends, from the numbers that a block stores: sign extension, transform and unquantising on i32. The arithmetic is bc6_half's and
// bc6_colour's, which serves the field record too.
//
// The bits of a mode come as literals, and the format as a const parameter: the compiler then works out four ends at once.
#![tactic(auto)]

ghost use Rattle.std.specs.Prelude.{◌≡◌, ◌^◌};
ghost use Rattle.laws.specs.Ranges.{Below};
ghost use Rattle.bc6_endpoints.specs.Ends.{end_at, end_of, Apart, Channel, ChannelEnds, StoredWhole, WholeEnds, Sixteen};

use bc6_colour::{transform_one, unquantize_narrow, unquantize_signed};
use bc6_half::sign_extend;

// A block's ends, unquantised: of two regions four a channel, of one region the first two.
#[derive(Clone, Copy)]
pub struct Ends {
    pub red: [i32; 4],
    pub green: [i32; 4],
    pub blue: [i32; 4],
}

// The end that is stored as a difference of `width` bits from `base`, which has p bits. The difference is added to the bits of the base as they
// are stored, and in signed format the sign is extended after it.
fn end<const SIGNED: bool>(base: i32, x: i32, width: u8, p: u8) -> i32
    requires { Apart p width base x }
    ensures { result ≡ end_of SIGNED p width base x }
{
    let moved = transform_one(base, sign_extend(x, width), p, SIGNED);
    if SIGNED {
        return unquantize_signed(moved, p);
    }
    unquantize_narrow(moved, p)
}

// A channel whose first end is stored whole and whose others are differences from it. The first is its own difference of 0.
pub fn moved<const SIGNED: bool>(n: [i32; 4], width: u8, p: u8) -> [i32; 4]
    requires { Channel p width n }
    ensures { ChannelEnds SIGNED p width n result }
{
    [
        end::<SIGNED>(n[0], 0, width, p),
        end::<SIGNED>(n[0], n[1], width, p),
        end::<SIGNED>(n[0], n[2], width, p),
        end::<SIGNED>(n[0], n[3], width, p),
    ]
}

// A channel whose ends are all stored whole, which is a difference from 0.
pub fn whole<const SIGNED: bool>(n: [i32; 4], p: u8) -> [i32; 4]
    requires { StoredWhole p n }
    ensures { WholeEnds SIGNED p n result }
{
    [
        end::<SIGNED>(0, n[0], p, p),
        end::<SIGNED>(0, n[1], p, p),
        end::<SIGNED>(0, n[2], p, p),
        end::<SIGNED>(0, n[3], p, p),
    ]
}

// The two ends of sixteen bits, the second as a difference of four, in either format: there is nothing to unquantise.
pub fn moved_16(n: [i32; 4]) -> [i32; 4]
    requires { Below (2 ^ 16) (end_at n 0) × Below (2 ^ 4) (end_at n 1) }
    ensures { Sixteen n result }
{
    [
        n[0],
        transform_one(n[0], sign_extend(n[1], 4), 16, false),
        0,
        0,
    ]
}
