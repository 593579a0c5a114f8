// A block's ends, from its two words: read, transformed and unquantised on i32, four of a channel in an array. A block of one region has the
// first two.
//
// The format and the bits of each mode are const parameters, so that every instance has them as literals. One law over the modes makes of what
// it promises what a block's ends are.
#![tactic(auto)]

ghost use Rattle.std.specs.Prelude.{◌≤◌};
ghost use Rattle.bcn_util.specs.Stream.{number};
ghost use Rattle.bc6h_spec.specs.Fields.{mode_in};
ghost use Rattle.bc6_endpoints.specs.Ends.{Channel, ChannelEnds, StoredWhole, WholeEnds};
ghost use Rattle.bc6_by_mode.specs.Words.{SixteenEnds, BlockEnds};

use bc6_endpoints::{Ends, moved, moved_16, whole};
use bc6_runs::one_region::read_pair;
use bc6_runs::{
    Channels, channels_1, channels_2, channels_3, channels_4, channels_5, channels_6, channels_7,
    channels_8, channels_9, channels_10,
};

// The ends of a mode whose first endpoint is stored whole, in P bits, and whose others are differences from it: of R bits in red, G in green and B
// in blue.
fn moved_ends<const SIGNED: bool, const R: u8, const G: u8, const B: u8, const P: u8>(
    stored: Channels,
) -> Ends
    requires { Channel P R stored.red × Channel P G stored.green × Channel P B stored.blue }
    ensures { ChannelEnds SIGNED P R stored.red result.red × ChannelEnds SIGNED P G stored.green result.green × ChannelEnds SIGNED P B stored.blue result.blue }
{
    Ends {
        red: moved::<SIGNED>(stored.red, R, P),
        green: moved::<SIGNED>(stored.green, G, P),
        blue: moved::<SIGNED>(stored.blue, B, P),
    }
}

// The ends of a mode that stores all of them whole, in P bits.
fn whole_ends<const SIGNED: bool, const P: u8>(stored: Channels) -> Ends
    requires { StoredWhole P stored.red × StoredWhole P stored.green × StoredWhole P stored.blue }
    ensures { WholeEnds SIGNED P stored.red result.red × WholeEnds SIGNED P stored.green result.green × WholeEnds SIGNED P stored.blue result.blue }
{
    Ends {
        red: whole::<SIGNED>(stored.red, P),
        green: whole::<SIGNED>(stored.green, P),
        blue: whole::<SIGNED>(stored.blue, P),
    }
}

// In mode 14 the ends of both formats have the same sixteen bits.
fn ends_14(lo: u64, hi: u64) -> Ends
    ensures { SixteenEnds (number (record { lo = lo; hi = hi })) result }
{
    let Channels { red, green, blue } = read_pair(lo, hi, 6);
    Ends {
        red: moved_16(red),
        green: moved_16(green),
        blue: moved_16(blue),
    }
}

// The ends of a block, by the five bits that name its mode.
pub fn ends<const SIGNED: bool>(lo: u64, hi: u64) -> Ends
    requires { 1 ≤ mode_in (number (record { lo = lo; hi = hi })) }
    ensures { BlockEnds SIGNED (number (record { lo = lo; hi = hi })) result }
{
    match lo % 32 {
        0 | 4 | 8 | 12 | 16 | 20 | 24 | 28 => moved_ends::<SIGNED, 5, 5, 5, 10>(channels_1(lo, hi)),
        1 | 5 | 9 | 13 | 17 | 21 | 25 | 29 => moved_ends::<SIGNED, 6, 6, 6, 7>(channels_2(lo, hi)),
        2 => moved_ends::<SIGNED, 5, 4, 4, 11>(channels_3(lo, hi)),
        6 => moved_ends::<SIGNED, 4, 5, 4, 11>(channels_4(lo, hi)),
        10 => moved_ends::<SIGNED, 4, 4, 5, 11>(channels_5(lo, hi)),
        14 => moved_ends::<SIGNED, 5, 5, 5, 9>(channels_6(lo, hi)),
        18 => moved_ends::<SIGNED, 6, 5, 5, 8>(channels_7(lo, hi)),
        22 => moved_ends::<SIGNED, 5, 6, 5, 8>(channels_8(lo, hi)),
        26 => moved_ends::<SIGNED, 5, 5, 6, 8>(channels_9(lo, hi)),
        30 => whole_ends::<SIGNED, 6>(channels_10(lo, hi)),
        3 => whole_ends::<SIGNED, 10>(read_pair(lo, hi, 0)),
        7 => moved_ends::<SIGNED, 9, 9, 9, 11>(read_pair(lo, hi, 1)),
        11 => moved_ends::<SIGNED, 8, 8, 8, 12>(read_pair(lo, hi, 2)),
        _ => ends_14(lo, hi),
    }
}
