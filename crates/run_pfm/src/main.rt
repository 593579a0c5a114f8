// Standard input is a DDS file of at most 64 by 64 pixels. A number goes out, one byte, and where it is 0 the picture as a Portable Float
// Map.
#![tactic(auto)]

ghost use Rattle.std.specs.Prelude.{◌≡◌, ◌≤◌, length};
ghost use Rattle.run_pfm.specs.Export.{size_small, Exported};

use bcn_spec::Answer;
use dds::{dds_blocks, dds_head, dds_read};
use pfm::{PfmWritten, pfm_write};
use run_streams::read_full;
use std::io;

// The most pixels on a side.
const LIMIT: u32 = 64;

// A byte more than the largest file has: of a longer one that is enough to know.
const MOST: usize = 4245;

// The header, and twelve bytes for each of 64 by 64 pixels.
const ROOM: usize = 49166;

fn size_small(width: u32, height: u32) -> bool
    ensures { result ≡ size_small width height }
{
    (width <= LIMIT) & (height <= LIMIT)
}

// The picture of a DDS file as a Portable Float Map.
fn export(file: &[u8], out: &mut [u8]) -> PfmWritten
    ensures { Exported file.now out.old result out.new }
{
    let head = dds_head(file);
    if head.answer != Answer::DONE {
        return PfmWritten::refused(head.answer);
    }
    if !size_small(head.width, head.height) {
        return PfmWritten::refused(Answer::BAD_SIZE);
    }
    let read = dds_read(file);
    if read.answer != Answer::DONE {
        return PfmWritten::refused(read.answer);
    }
    pfm_write(dds_blocks(file), read.format, read.width, read.height, out)
}

fn tell(rt: &impl Print, written: PfmWritten, out: &[u8]) -> io::Result<()>
    requires { written.length ≤ length out.now }
{
    let number = [written.answer];
    rt.write_all(&number)?;
    rt.write_all(&out[..written.length])
}

fn main(rt: HostRuntime) -> io::Result<()> {
    let mut file = [0u8; MOST];
    let got = read_full(&mut rt.reader(), &mut file)?;
    let mut out = [0u8; ROOM];
    let written = export(&file[..got], &mut out);
    tell(&rt, written, &out)
}
