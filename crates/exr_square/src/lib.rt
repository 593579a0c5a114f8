// The values of a square picture, row by row from the top, as an OpenEXR file.
#![tactic(auto)]

ghost use Rattle.std.specs.Prelude.{◌+◌, ◌*◌, ◌<◌, ◌≤◌, length};
ghost use Rattle.text.specs.Text.{Written};
ghost use Rattle.exr_square.specs.Square.{square_channel, square_line, square_lines, square_file, square_room};

use exr::{put_half, put_head};
use exr_header::put_front;

// One channel of line y, from `at` on; answers the place behind it.
fn put_channel(
    values: &[u16],
    side: usize,
    channel: usize,
    y: usize,
    out: &mut [u8],
    at: usize,
) -> usize
    requires channel_bound { (channel < 3) × (y < side) × (side ≤ 64) }
    requires side_in_bounds { (3 * (side * side) ≤ length values.now) × (at + 2 * side ≤ length out.old) }
    ensures { Written out.old at (square_channel values.now side channel y) result out.new }
{
    for x in 0..side {
        put_half(values[3 * (y * side + x) + channel], out, at + 2 * x);
    }
    at + 2 * side
}

// Line y: its head, all blue values, all green ones, all red ones.
fn put_line(values: &[u16], edge: usize, y: usize, out: &mut [u8], at: usize) -> usize
    requires edge_bound { (edge ≤ 16) × (y < 4 * edge) }
    requires edge_in_bounds { (3 * (4 * edge * (4 * edge)) ≤ length values.now) × (at + (8 + 24 * edge) ≤ length out.old) }
    ensures { Written out.old at (square_line values.now (4 * edge) y) result out.new }
{
    put_head(4 * edge, y, out, at);
    let green = put_channel(values, 4 * edge, 2, y, out, at + 8);
    let red = put_channel(values, 4 * edge, 1, y, out, green);
    put_channel(values, 4 * edge, 0, y, out, red)
}

// All lines from the top down.
fn put_lines(values: &[u16], edge: usize, out: &mut [u8], at: usize) -> usize
    requires edge_bound { edge ≤ 16 }
    requires edge_in_bounds { (3 * (4 * edge * (4 * edge)) ≤ length values.now) × (at + (8 + 24 * edge) * (4 * edge) ≤ length out.old) }
    ensures { Written out.old at (square_lines values.now (4 * edge)) result out.new }
{
    let count = 4 * edge;
    for y in 0..count {
        put_line(values, edge, y, out, at + (8 + 24 * edge) * y);
    }
    at + (8 + 24 * edge) * count
}

// The file of a picture of four times `edge` pixels on a side; answers how many bytes it has.
pub fn put_square(values: &[u16], edge: usize, out: &mut [u8]) -> usize
    requires le_edge { (1 ≤ edge) × (edge ≤ 16) }
    requires edge_in_bounds { (3 * (4 * edge * (4 * edge)) ≤ length values.now) × (square_room ≤ length out.old) }
    ensures upper_bound { result ≤ square_room }
    ensures written { Written out.old 0 (square_file values.now (4 * edge)) result out.new }
{
    let side = (4 * edge) as u32;
    let at = put_front(side, side, out);
    put_lines(values, edge, out, at)
}
