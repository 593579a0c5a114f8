// The endpoints of a block, as they are stored: what decoding reads. The places are red, green and blue of the endpoints w, x, y and z, four
// numbers a channel. Those of two regions are here, those of one region in `one_region`. The mode is read elsewhere.
#![tactic(auto)]

pub mod one_region;

ghost use Rattle.std.specs.Prelude.{◌≡◌, ◌+◌, ◌/◌, ◌%◌, ◌^◌, T};
ghost use Rattle.bcn_util.specs.Stream.{number};
ghost use Rattle.bcn_util.specs.Runs.{part, readable};
ghost use Rattle.bc6_runs.specs.Ends.{four_of, run_in, sum_at, fits, ByTables, ChannelsRead};

use bcn_util::BitStream;

// A run of bits, by a code of hexadecimal digits: two for the bit that it starts at, two for its length, one for its endpoint, and one for the
// bit that its lowest becomes there.
fn run(stream: BitStream, code: u32) -> u64
    requires { T (readable (run_in code)) }
    ensures { result ≡ part (number stream) (run_in code) }
{
    let at = (code / 0x1_0000) as u64;
    let size = ((code / 0x100) % 0x100) as u64;
    let shift = (code % 0x10) as u64;
    let rest = stream.skip(at);
    let read = rest.consume_bits(size);
    read.bits << shift
}

// The runs of a table, each added to its endpoint's number. A mode's table is literal, so that the compiler writes the runs out one after the
// other.
fn word(stream: BitStream, runs: &[u32]) -> [i32; 4]
    requires { T (fits runs.now) }
    ensures { result ≡ four_of (sum_at (number stream) runs.now) }
{
    let mut numbers = [0i32; 4];
    for code in runs {
        let e = ((*code / 0x10) % 4) as usize;
        numbers[e] = numbers[e] + (run(stream, *code) as i32);
    }
    numbers
}

// The partition of a mode of two regions.
pub fn read_partition(stream: BitStream) -> u16
    ensures { result ≡ number stream / 2 ^ 77 % 2 ^ 5 }
{
    run(stream, 0x4D0500) as u16
}

// Four numbers a channel, endpoint w the first. Beside each run below stand the bits that it has: gy[3:0] are the four lowest of green of y.
#[derive(Clone, Copy)]
pub struct Channels {
    pub red: [i32; 4],
    pub green: [i32; 4],
    pub blue: [i32; 4],
}

// The channels of a mode, whose tables its own function below has. It is taken into that function, so that the tables stay literal.
#[inline(always)]
fn by_tables(lo: u64, hi: u64, red: &[u32], green: &[u32], blue: &[u32]) -> Channels
    requires reds { T (fits red.now) }
    requires greens { T (fits green.now) }
    requires blues { T (fits blue.now) }
    ensures { ByTables red.now green.now blue.now (number (record { lo = lo; hi = hi })) result }
{
    let stream = BitStream::of(lo, hi);
    Channels {
        red: word(stream, red),
        green: word(stream, green),
        blue: word(stream, blue),
    }
}

// M10_555
pub fn channels_1(lo: u64, hi: u64) -> Channels
    ensures { ChannelsRead 1 (number (record { lo = lo; hi = hi })) result }
{
    let red_runs = [
        0x050A00, // rw[9:0]
        0x230510, // rx[4:0]
        0x410520, // ry[4:0]
        0x470530, // rz[4:0]
    ];
    let green_runs = [
        0x0F0A00, // gw[9:0]
        0x2D0510, // gx[4:0]
        0x020124, // gy[4]
        0x290420, // gy[3:0]
        0x280134, // gz[4]
        0x330430, // gz[3:0]
    ];
    let blue_runs = [
        0x190A00, // bw[9:0]
        0x370510, // bx[4:0]
        0x030124, // by[4]
        0x3D0420, // by[3:0]
        0x040134, // bz[4]
        0x320130, // bz[0]
        0x3C0131, // bz[1]
        0x460132, // bz[2]
        0x4C0133, // bz[3]
    ];
    by_tables(lo, hi, &red_runs, &green_runs, &blue_runs)
}

// M7_666
pub fn channels_2(lo: u64, hi: u64) -> Channels
    ensures { ChannelsRead 2 (number (record { lo = lo; hi = hi })) result }
{
    let red_runs = [
        0x050700, // rw[6:0]
        0x230610, // rx[5:0]
        0x410620, // ry[5:0]
        0x470630, // rz[5:0]
    ];
    let green_runs = [
        0x0F0700, // gw[6:0]
        0x2D0610, // gx[5:0]
        0x020125, // gy[5]
        0x180124, // gy[4]
        0x290420, // gy[3:0]
        0x030234, // gz[5:4]
        0x330430, // gz[3:0]
    ];
    let blue_runs = [
        0x190700, // bw[6:0]
        0x370610, // bx[5:0]
        0x0E0124, // by[4]
        0x160125, // by[5]
        0x3D0420, // by[3:0]
        0x0C0230, // bz[1:0]
        0x170132, // bz[2]
        0x200133, // bz[3]
        0x210135, // bz[5]
        0x220134, // bz[4]
    ];
    by_tables(lo, hi, &red_runs, &green_runs, &blue_runs)
}

// M11_544
pub fn channels_3(lo: u64, hi: u64) -> Channels
    ensures { ChannelsRead 3 (number (record { lo = lo; hi = hi })) result }
{
    let red_runs = [
        0x050A00, // rw[9:0]
        0x28010A, // rw[10]
        0x230510, // rx[4:0]
        0x410520, // ry[4:0]
        0x470530, // rz[4:0]
    ];
    let green_runs = [
        0x0F0A00, // gw[9:0]
        0x31010A, // gw[10]
        0x2D0410, // gx[3:0]
        0x290420, // gy[3:0]
        0x330430, // gz[3:0]
    ];
    let blue_runs = [
        0x190A00, // bw[9:0]
        0x3B010A, // bw[10]
        0x370410, // bx[3:0]
        0x3D0420, // by[3:0]
        0x320130, // bz[0]
        0x3C0131, // bz[1]
        0x460132, // bz[2]
        0x4C0133, // bz[3]
    ];
    by_tables(lo, hi, &red_runs, &green_runs, &blue_runs)
}

// M11_454
pub fn channels_4(lo: u64, hi: u64) -> Channels
    ensures { ChannelsRead 4 (number (record { lo = lo; hi = hi })) result }
{
    let red_runs = [
        0x050A00, // rw[9:0]
        0x27010A, // rw[10]
        0x230410, // rx[3:0]
        0x410420, // ry[3:0]
        0x470430, // rz[3:0]
    ];
    let green_runs = [
        0x0F0A00, // gw[9:0]
        0x32010A, // gw[10]
        0x2D0510, // gx[4:0]
        0x290420, // gy[3:0]
        0x4B0124, // gy[4]
        0x280134, // gz[4]
        0x330430, // gz[3:0]
    ];
    let blue_runs = [
        0x190A00, // bw[9:0]
        0x3B010A, // bw[10]
        0x370410, // bx[3:0]
        0x3D0420, // by[3:0]
        0x3C0131, // bz[1]
        0x450130, // bz[0]
        0x460132, // bz[2]
        0x4C0133, // bz[3]
    ];
    by_tables(lo, hi, &red_runs, &green_runs, &blue_runs)
}

// M11_445
pub fn channels_5(lo: u64, hi: u64) -> Channels
    ensures { ChannelsRead 5 (number (record { lo = lo; hi = hi })) result }
{
    let red_runs = [
        0x050A00, // rw[9:0]
        0x27010A, // rw[10]
        0x230410, // rx[3:0]
        0x410420, // ry[3:0]
        0x470430, // rz[3:0]
    ];
    let green_runs = [
        0x0F0A00, // gw[9:0]
        0x31010A, // gw[10]
        0x2D0410, // gx[3:0]
        0x290420, // gy[3:0]
        0x330430, // gz[3:0]
    ];
    let blue_runs = [
        0x190A00, // bw[9:0]
        0x3C010A, // bw[10]
        0x370510, // bx[4:0]
        0x280124, // by[4]
        0x3D0420, // by[3:0]
        0x320130, // bz[0]
        0x450231, // bz[2:1]
        0x4B0134, // bz[4]
        0x4C0133, // bz[3]
    ];
    by_tables(lo, hi, &red_runs, &green_runs, &blue_runs)
}

// M9_555
pub fn channels_6(lo: u64, hi: u64) -> Channels
    ensures { ChannelsRead 6 (number (record { lo = lo; hi = hi })) result }
{
    let red_runs = [
        0x050900, // rw[8:0]
        0x230510, // rx[4:0]
        0x410520, // ry[4:0]
        0x470530, // rz[4:0]
    ];
    let green_runs = [
        0x0F0900, // gw[8:0]
        0x2D0510, // gx[4:0]
        0x180124, // gy[4]
        0x290420, // gy[3:0]
        0x280134, // gz[4]
        0x330430, // gz[3:0]
    ];
    let blue_runs = [
        0x190900, // bw[8:0]
        0x370510, // bx[4:0]
        0x0E0124, // by[4]
        0x3D0420, // by[3:0]
        0x220134, // bz[4]
        0x320130, // bz[0]
        0x3C0131, // bz[1]
        0x460132, // bz[2]
        0x4C0133, // bz[3]
    ];
    by_tables(lo, hi, &red_runs, &green_runs, &blue_runs)
}

// M8_655
pub fn channels_7(lo: u64, hi: u64) -> Channels
    ensures { ChannelsRead 7 (number (record { lo = lo; hi = hi })) result }
{
    let red_runs = [
        0x050800, // rw[7:0]
        0x230610, // rx[5:0]
        0x410620, // ry[5:0]
        0x470630, // rz[5:0]
    ];
    let green_runs = [
        0x0F0800, // gw[7:0]
        0x2D0510, // gx[4:0]
        0x180124, // gy[4]
        0x290420, // gy[3:0]
        0x0D0134, // gz[4]
        0x330430, // gz[3:0]
    ];
    let blue_runs = [
        0x190800, // bw[7:0]
        0x370510, // bx[4:0]
        0x0E0124, // by[4]
        0x3D0420, // by[3:0]
        0x170132, // bz[2]
        0x210233, // bz[4:3]
        0x320130, // bz[0]
        0x3C0131, // bz[1]
    ];
    by_tables(lo, hi, &red_runs, &green_runs, &blue_runs)
}

// M8_565
pub fn channels_8(lo: u64, hi: u64) -> Channels
    ensures { ChannelsRead 8 (number (record { lo = lo; hi = hi })) result }
{
    let red_runs = [
        0x050800, // rw[7:0]
        0x230510, // rx[4:0]
        0x410520, // ry[4:0]
        0x470530, // rz[4:0]
    ];
    let green_runs = [
        0x0F0800, // gw[7:0]
        0x2D0610, // gx[5:0]
        0x170125, // gy[5]
        0x180124, // gy[4]
        0x290420, // gy[3:0]
        0x210135, // gz[5]
        0x280134, // gz[4]
        0x330430, // gz[3:0]
    ];
    let blue_runs = [
        0x190800, // bw[7:0]
        0x370510, // bx[4:0]
        0x0E0124, // by[4]
        0x3D0420, // by[3:0]
        0x0D0130, // bz[0]
        0x220134, // bz[4]
        0x3C0131, // bz[1]
        0x460132, // bz[2]
        0x4C0133, // bz[3]
    ];
    by_tables(lo, hi, &red_runs, &green_runs, &blue_runs)
}

// M8_556
pub fn channels_9(lo: u64, hi: u64) -> Channels
    ensures { ChannelsRead 9 (number (record { lo = lo; hi = hi })) result }
{
    let red_runs = [
        0x050800, // rw[7:0]
        0x230510, // rx[4:0]
        0x410520, // ry[4:0]
        0x470530, // rz[4:0]
    ];
    let green_runs = [
        0x0F0800, // gw[7:0]
        0x2D0510, // gx[4:0]
        0x180124, // gy[4]
        0x290420, // gy[3:0]
        0x280134, // gz[4]
        0x330430, // gz[3:0]
    ];
    let blue_runs = [
        0x190800, // bw[7:0]
        0x370610, // bx[5:0]
        0x0E0124, // by[4]
        0x170125, // by[5]
        0x3D0420, // by[3:0]
        0x0D0131, // bz[1]
        0x210135, // bz[5]
        0x220134, // bz[4]
        0x320130, // bz[0]
        0x460132, // bz[2]
        0x4C0133, // bz[3]
    ];
    by_tables(lo, hi, &red_runs, &green_runs, &blue_runs)
}

// M6_666
pub fn channels_10(lo: u64, hi: u64) -> Channels
    ensures { ChannelsRead 10 (number (record { lo = lo; hi = hi })) result }
{
    let red_runs = [
        0x050600, // rw[5:0]
        0x230610, // rx[5:0]
        0x410620, // ry[5:0]
        0x470630, // rz[5:0]
    ];
    let green_runs = [
        0x0F0600, // gw[5:0]
        0x2D0610, // gx[5:0]
        0x150125, // gy[5]
        0x180124, // gy[4]
        0x290420, // gy[3:0]
        0x0B0134, // gz[4]
        0x1F0135, // gz[5]
        0x330430, // gz[3:0]
    ];
    let blue_runs = [
        0x190600, // bw[5:0]
        0x370610, // bx[5:0]
        0x0E0124, // by[4]
        0x160125, // by[5]
        0x3D0420, // by[3:0]
        0x0C0230, // bz[1:0]
        0x170132, // bz[2]
        0x200133, // bz[3]
        0x210135, // bz[5]
        0x220134, // bz[4]
    ];
    by_tables(lo, hi, &red_runs, &green_runs, &blue_runs)
}
