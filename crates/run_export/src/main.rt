// Standard input is a wish, ten bytes, and then the rows of blocks of a picture, in the order of the file. The wish is a kind, 0 for a Portable
// Float Map and 1 for an OpenEXR file; a format; a width and a height, four bytes each, low byte first. The file goes out, cropped to the width
// and the height. A Portable Float Map has the lowest row of blocks first, an OpenEXR file the highest.
//
// A wish that is not whole or not ours gets no answer, and a row of blocks that is not whole ends the file. One row of blocks is held at a time.
#![tactic(auto)]

ghost use Rattle.std.specs.Prelude.{◌≡◌, ◌≤◌, ◌<◌, ◌*◌, MatchOption, false, length};
ghost use Rattle.bcn_spec.specs.Bits.{block_size};
ghost use Rattle.dds.specs.Dds.{SizeOurs, blocks_along};
ghost use Rattle.pfm_bands.specs.Bands as bands;
ghost use Rattle.run_export.specs.Export.{wish_ours, Says};

use bcn_spec::Block;
use dds::{blocks_along, size_ours};
use exr_bands::put_lines;
use exr_header::put_front;
use pfm_bands::put_rows;
use pfm_header::put_header;
use raw_bytes::u32_at;
use run_streams::read_full;
use std::io;

// The bytes of a wish.
const WISH: usize = 10;

// The most bytes of a row of blocks.
const BAND: usize = 16384;

// The most bytes that a row of blocks shows: four rows of 4,096 pixels, twelve bytes each.
const ROOM: usize = 196608;

fn is_ours(kind: u8, format: u8, width: u32, height: u32) -> bool
    ensures { result ≡ wish_ours kind format width height }
{
    let size = size_ours(width, height);
    ((kind <= 1) & (format <= 1)) & size
}

// A Portable Float Map or an OpenEXR file.
#[derive(Clone, Copy)]
enum Kind {
    Pfm,
    Exr,
}

impl Kind {
    ghost use Rattle.run_export.specs.Wishes.{kind_number};

    fn numbered(number: u8) -> Kind
        requires { number ≤ 1 }
        ensures { kind_number result ≡ number }
    {
        if number == 0 { Kind::Pfm } else { Kind::Exr }
    }
}

// What is asked for, where it is ours.
#[derive(Clone, Copy)]
struct Wish {
    kind: Kind,
    format: u8,
    width: u32,
    height: u32,
    ghost known: { format ≤ 1 },
    ghost size: { SizeOurs width height },
}

impl Wish {
    ghost use Rattle.run_export.specs.Wishes.{IsAsked, front_asked, piece_asked};

    fn asked(kind: u8, format: u8, width: u32, height: u32) -> Option<Wish>
        ensures { MatchOption result (wish_ours kind format width height ≡ false) (IsAsked kind format width height) }
    {
        if !is_ours(kind, format, width, height) {
            return None;
        }
        Some(Wish {
            kind: Kind::numbered(kind),
            format,
            width,
            height,
        })
    }

    // What stands before the rows of blocks; answers how many bytes that is.
    fn put_start(self, out: &mut [u8]) -> usize
        requires { 196608 ≤ length out.old }
        ensures { Says (front_asked self) out.new result }
    {
        match self.kind {
            Kind::Pfm => put_header(self.width, self.height, out),
            Kind::Exr => put_front(self.width, self.height, out),
        }
    }

    // How many of its four rows of pixels the picture has of row of blocks d.
    fn rows_in(self, d: usize) -> usize
        requires { d < blocks_along self.height }
        ensures { result ≡ bands.rows_in self.height d }
    {
        let left = self.height as usize - 4 * d;
        left.min(4)
    }

    // What the file has of the row of blocks of turn n; answers how many bytes that is.
    fn put_piece(self, n: usize, band: &[u8], lines: &mut [u8], out: &mut [u8]) -> usize
        requires turn { n < blocks_along self.height }
        requires in_bounds { (block_size * blocks_along self.width ≤ length band.now) × (196608 ≤ length lines.old) × (196608 ≤ length out.old) }
        ensures { Says (piece_asked self n band.now) out.new result }
    {
        match self.kind {
            Kind::Pfm => {
                let rows = self.rows_in(blocks_along(self.height) - 1 - n);
                put_rows(band, self.format, self.width as usize, rows, lines, out)
            }
            Kind::Exr => {
                let rows = self.rows_in(n);
                put_lines(
                    band,
                    self.format,
                    self.width as usize,
                    4 * n,
                    rows,
                    lines,
                    out,
                )
            }
        }
    }

    // What goes out first is what stands before the rows of blocks.
    fn write_start(self, rt: &impl Print, out: &[u8], end: usize) -> io::Result<()>
        requires { Says (front_asked self) out.now end }
    {
        rt.write_all(&out[..end])
    }

    // What goes out then is the piece of the row of blocks that was read.
    fn write_piece(
        self,
        rt: &impl Print,
        n: usize,
        band: &[u8],
        out: &[u8],
        end: usize,
    ) -> io::Result<()>
        requires { Says (piece_asked self n band.now) out.now end }
    {
        rt.write_all(&out[..end])
    }

    // Reads the row of blocks of turn n and writes its piece; answers whether to go on.
    fn export_band(
        self,
        rt: &(impl Input + Print),
        n: usize,
        band: &mut [u8],
        lines: &mut [u8],
        out: &mut [u8],
    ) -> io::Result<bool>
        requires turn { n < blocks_along self.height }
        requires in_bounds { (16384 ≤ length band.old) × (196608 ≤ length lines.old) × (196608 ≤ length out.old) }
    {
        let size = Block::SIZE * blocks_along(self.width);
        if read_full(&mut rt.reader(), &mut band[..size])? != size {
            return Ok(false);
        }
        let end = self.put_piece(n, &band[..size], lines, out);
        self.write_piece(rt, n, &band[..size], out, end)?;
        Ok(true)
    }

    fn export(self, rt: &(impl Input + Print)) -> io::Result<()> {
        let mut band = [0u8; BAND];
        let mut lines = [0u8; ROOM];
        let mut out = [0u8; ROOM];
        let end = self.put_start(&mut out);
        self.write_start(rt, &out, end)?;
        for n in 0..blocks_along(self.height) {
            if !self.export_band(rt, n, &mut band, &mut lines, &mut out)? {
                break;
            }
        }
        Ok(())
    }
}

fn main(rt: HostRuntime) -> io::Result<()> {
    let mut wish = [0u8; WISH];
    if read_full(&mut rt.reader(), &mut wish)? != WISH {
        return Ok(());
    }
    match Wish::asked(wish[0], wish[1], u32_at(&wish, 2), u32_at(&wish, 6)) {
        Some(asked) => asked.export(&rt),
        None => Ok(()),
    }
}
