// The 65,536 half-float patterns are 64 pages of 1,024. Standard input is page numbers, a byte each, at most 64; for each the floats of its
// patterns go out in their order, four bytes each, low byte first. Of a float that is no number the bytes are those of 0x7FC00000.
#![tactic(auto)]

ghost use Rattle.std.specs.Prelude.{◌≡◌};
ghost use Rattle.pfm_floats.specs.Half.{float_of};
ghost use Rattle.check_floats.specs.Shown.{float_bits};

use pfm_floats::float_of;
use run_streams::read_full;
use std::io;

// What is written of a float that is no number, which has no bits of its own.
const NONE: u32 = 0x7FC00000;

const PAGES: usize = 64;

// The patterns of a page, and a page's bytes.
const PAGE: usize = 1024;

const BYTES: usize = 4096;

fn bits_of(half: u16) -> u32
    ensures { result ≡ float_bits (float_of half) }
{
    let value = float_of(half);
    if value != value {
        return NONE;
    }
    f32::to_bits(value)
}

fn write_page(rt: &impl Print, page: u8) -> io::Result<()> {
    let first = PAGE * (usize::from(page) % PAGES);
    let mut bytes = [0u8; BYTES];
    for k in 0..PAGE {
        let word = bits_of((first + k) as u16);
        bytes[4 * k..4 * k + 4].copy_from_slice(&word.to_le_bytes());
    }
    rt.write_all(&bytes)
}

fn main(rt: HostRuntime) -> io::Result<()> {
    let mut pages = [0u8; PAGES];
    let got = read_full(&mut rt.reader(), &mut pages)?;
    for page in &pages[..got] {
        write_page(&rt, *page)?;
    }
    Ok(())
}
