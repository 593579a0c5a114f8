// The pixels call at its limits: formats 0, 1, 2, 255, block lengths 15, 16, 17, outputs of 0, 47, 48, 49 and 100 values. A line has the
// three, the answer and the mode, how many of a hundred values changed, and how many of those lie past the first 48.
#![tactic(auto)]

ghost use Rattle.std.specs.Prelude.{◌≤◌, length};

use bcn_spec::answer_number;
use std::io;

// What every lent value is before the call. No block shows it: its magnitude is above the highest pattern.
const UNTOUCHED: u16 = 0xFFFF;

fn print_next(rt: &impl Print, n: u64) -> io::Result<()> {
    print!(rt; " {n}")
}

// How many values from `from` on are not as they were lent.
fn changed(values: &[u16], from: usize) -> usize {
    values
        .iter()
        .skip(from)
        .filter(|value| **value != UNTOUCHED)
        .count()
}

fn print_call(
    rt: &impl Print,
    block: &[u8],
    format: u8,
    size: usize,
    values: &mut [u16],
    room: usize,
) -> io::Result<()>
    requires { (size ≤ length block.now) × (room ≤ length values.old) }
{
    let told = bc6::block_pixels(&block[..size], format, &mut values[..room]);
    print!(rt; "{format}")?;
    print_next(rt, size as u64)?;
    print_next(rt, room as u64)?;
    print_next(rt, answer_number(told) as u64)?;
    print_next(rt, told.map_or(0, |shown| shown.mode) as u64)?;
    print_next(rt, changed(values, 0) as u64)?;
    print_next(rt, changed(values, 48) as u64)?;
    println!(rt; "")
}

// B5 (S-28) and a byte more, with a hundred values to write to.
fn print_limit(rt: &impl Print, format: u8, size: usize, room: usize) -> io::Result<()>
    requires { (size ≤ 17) × (room ≤ 100) }
{
    let block = [0x0Bu8, 0, 0, 0, 0, 0x08, 0, 0, 0, 0, 0, 0, 0, 0, 0, 0, 0];
    let mut values = [UNTOUCHED; 100];
    print_call(rt, &block, format, size, &mut values, room)
}

fn print_rooms(rt: &impl Print, format: u8, size: usize) -> io::Result<()>
    requires { size ≤ 17 }
{
    print_limit(rt, format, size, 0)?;
    print_limit(rt, format, size, 47)?;
    print_limit(rt, format, size, 48)?;
    print_limit(rt, format, size, 49)?;
    print_limit(rt, format, size, 100)
}

fn print_sizes(rt: &impl Print, format: u8) -> io::Result<()> {
    print_rooms(rt, format, 15)?;
    print_rooms(rt, format, 16)?;
    print_rooms(rt, format, 17)
}

fn main(rt: HostRuntime) -> io::Result<()> {
    print_sizes(&rt, 0)?;
    print_sizes(&rt, 1)?;
    print_sizes(&rt, 2)?;
    print_sizes(&rt, 255)
}
