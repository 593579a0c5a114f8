// The front of an OpenEXR file: the header, and the table of where each scan line begins.
#![tactic(auto)]

ghost use Rattle.std.specs.Prelude.{◌≡◌, ◌≤◌, ◌+◌, length};
ghost use Rattle.std.proofs.lemmas.List.Edits.{sets};
ghost use Rattle.text.specs.Text.{Written};
ghost use Rattle.exr_header.specs.Header.{start_part, data_part, display_part, corner_of, screen_part, header_of};
ghost use Rattle.exr_header.specs.Header.{header_length, table_of, front_of, front_length, SizeFits};

use text::put;

// The magic, the version and the three channels.
fn put_start(out: &mut [u8])
    requires { 83 ≤ length out.old }
    ensures { out.new ≡ sets out.old 0 start_part }
{
    put(
        out,
        0,
        b"v/1\x01\x02\x00\x00\x00channels\x00chlist\x00\x37\x00\x00\x00B\x00\x01\x00\x00\x00\x00\x00\x00\x00\x01\x00\x00\x00\x01\x00\x00\x00G\x00\x01\x00\x00\x00\x00\x00\x00\x00\x01\x00\x00\x00\x01\x00\x00\x00R\x00\x01\x00\x00\x00\x00\x00\x00\x00\x01\x00\x00\x00\x01\x00\x00\x00\x00",
    );
}

// No compression; the data window up to its greatest x.
fn put_data(out: &mut [u8])
    requires { 141 ≤ length out.old }
    ensures { out.new ≡ sets out.old 83 data_part }
{
    put(
        out,
        83,
        b"compression\x00compression\x00\x01\x00\x00\x00\x00dataWindow\x00box2i\x00\x10\x00\x00\x00\x00\x00\x00\x00\x00\x00\x00\x00",
    );
}

// The display window up to its greatest x.
fn put_display(out: &mut [u8])
    requires { 181 ≤ length out.old }
    ensures { out.new ≡ sets out.old 149 display_part }
{
    put(
        out,
        149,
        b"displayWindow\x00box2i\x00\x10\x00\x00\x00\x00\x00\x00\x00\x00\x00\x00\x00",
    );
}

// The greatest x and y of a window.
fn put_corner(width: u32, height: u32, out: &mut [u8], at: usize)
    requires { SizeFits width height × (at + 8 ≤ length out.old) }
    ensures { out.new ≡ sets out.old at (corner_of width height) }
{
    put(out, at, &(width - 1).to_le_bytes());
    put(out, at + 4, &(height - 1).to_le_bytes());
}

// Lines from the top down, square pixels, and the screen window; the zero byte that ends the header.
fn put_screen(out: &mut [u8])
    requires { 313 ≤ length out.old }
    ensures { out.new ≡ sets out.old 189 screen_part }
{
    put(
        out,
        189,
        b"lineOrder\x00lineOrder\x00\x01\x00\x00\x00\x00pixelAspectRatio\x00float\x00\x04\x00\x00\x00\x00\x00\x80\x3fscreenWindowCenter\x00v2f\x00\x08\x00\x00\x00\x00\x00\x00\x00\x00\x00\x00\x00screenWindowWidth\x00float\x00\x04\x00\x00\x00\x00\x00\x80\x3f\x00",
    );
}

// The header, at the start of `out`.
fn put_header(width: u32, height: u32, out: &mut [u8])
    requires { SizeFits width height × (header_length ≤ length out.old) }
    ensures { out.new ≡ sets out.old 0 (header_of width height) }
{
    put_start(out);
    put_data(out);
    put_corner(width, height, out, 141);
    put_display(out);
    put_corner(width, height, out, 181);
    put_screen(out);
}

// Where each scan line begins in the file, in 8 bytes a line, behind the header.
fn put_table(width: u32, height: u32, out: &mut [u8])
    requires { SizeFits width height × (front_length height ≤ length out.old) }
    ensures { out.new ≡ sets out.old header_length (table_of width height) }
{
    let lines = height as usize;
    let first = front_length(height);
    let size = 8 + 6 * width as usize;
    for y in 0..lines {
        put(out, 313 + 8 * y, &((first + y * size) as u64).to_le_bytes());
    }
}

// The bytes before the first scan line.
pub fn front_length(height: u32) -> usize
    ensures { result ≡ front_length height }
{
    313 + 8 * height as usize
}

// The header and the table, at the start of `out`; answers how many bytes they have.
pub fn put_front(width: u32, height: u32, out: &mut [u8]) -> usize
    requires { SizeFits width height × (front_length height ≤ length out.old) }
    ensures { Written out.old 0 (front_of width height) result out.new }
{
    put_header(width, height, out);
    put_table(width, height, out);
    front_length(height)
}
