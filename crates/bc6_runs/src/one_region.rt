// The endpoints w and x of a block of one region, as they are stored: three fields of ten bits an endpoint, of which the second leaves its highest to
// the first. They are read in lanes of sixteen bits, and handed on as the first two of four numbers a channel.
ghost use Rattle.std.specs.Prelude.{◌≡◌, ◌/◌, ◌^◌, ◌≤◌, ◌<◌, T};
ghost use Rattle.bcn_util.specs.Stream.{number};
ghost use Rattle.bc6_runs.specs.Threes.{lane, three_of, ten, turned_bit, extra_bits};
ghost use Rattle.bc6_runs.specs.Ends.{two_of, is_extra, mode_by, ChannelsRead};

use crate::Channels;

// A one in each of three lanes.
const THREE: u64 = 0x1_0001_0001;

// Three fields of ten bits, the lowest of a word, a lane each.
fn tens(word: u64) -> u64
    ensures { result ≡ three_of (ten word) }
{
    (word & 0x3FF) + ((word & 0xF_FC00) << 6) + ((word & 0x3FF0_0000) << 12)
}

fn firsts(lo: u64) -> u64
    ensures { result ≡ three_of (ten (lo / 2 ^ 5)) }
{
    tens(lo >> 5)
}

// The second three, whose last bit is the first of the high word.
fn seconds(lo: u64, hi: u64) -> u64
    ensures { result ≡ three_of (ten (number (record { lo = lo; hi = hi }) / 2 ^ 35)) }
{
    tens((lo >> 35) + ((hi % 2) << 29))
}

// Bit `at` of each lane as bit 19 - at.
fn turned(f: u64, at: u64) -> u64
    requires { (4 ≤ at) × (at ≤ 9) }
    ensures { result ≡ three_of (turned_bit f at) }
{
    (f & (THREE << at)) << (19 - 2 * at)
}

// The bits above the tenth of the first endpoint, which are stored highest first.
fn extra_bits(f: u64, extra: u64) -> u64
    requires { extra ≤ 6 }
    ensures { result ≡ three_of (extra_bits f extra) }
{
    let mut above = 0u64;
    for k in 0..extra {
        above = above + turned(f, 9 - k);
    }
    above
}

// Lane e of a word.
fn lane(word: u64, e: u64) -> u16
    requires { e < 4 }
    ensures { result ≡ lane word e }
{
    ((word >> (16 * e)) % 0x1_0000) as u16
}

// A channel of two endpoints, out of lane k of their words.
fn pair(first: u64, second: u64, k: u64) -> [i32; 4]
    requires { k < 4 }
    ensures { result ≡ two_of (lane first k) (lane second k) }
{
    [lane(first, k) as i32, lane(second, k) as i32, 0, 0]
}

// The endpoints w and x of the mode that has `extra` bits above the tenth: 0 in M10_10, 1 in M11_9, 2 in M12_8, 6 in M16_4.
pub fn read_pair(lo: u64, hi: u64, extra: u64) -> Channels
    requires { T (is_extra extra) }
    ensures { ChannelsRead (mode_by extra) (number (record { lo = lo; hi = hi })) result }
{
    let f = seconds(lo, hi);
    let first = firsts(lo) + extra_bits(f, extra);
    let second = f & ((THREE << (10 - extra)) - THREE);
    let red = pair(first, second, 0);
    let green = pair(first, second, 1);
    let blue = pair(first, second, 2);
    Channels { red, green, blue }
}
