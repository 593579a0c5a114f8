// Standard input is a run of BC7 blocks, sixteen bytes each. For each it writes 64 bytes, four for each pixel. A batch of 1,024 blocks goes out at a time; a last
// one that is not whole blocks writes nothing, so that a caller sees by the length that something is missing.
#![tactic(auto)]

ghost use Rattle.std.specs.Prelude.{◌*◌, ◌/◌, ◌≤◌, length};
ghost use Rattle.run_bc7.specs.Batch.{Decoded};

use bc7::Shown;
use run_streams::read_full;
use std::io;

// What a batch shows, and how many bytes that is.
fn decode_batch(input: &[u8], out: &mut [u8]) -> usize
    requires { 64 * (length input.now / 16) ≤ length out.old }
    ensures { Decoded input.now out.old result out.new }
{
    match bc7_blocks::bc7_blocks_pixels(input, out) {
        Ok(blocks) => Shown::BYTES * blocks,
        Err(_) => 0,
    }
}

// The same, written in one go.
fn write_batch(rt: &impl Print, input: &[u8], out: &mut [u8]) -> io::Result<()>
    requires { 64 * (length input.now / 16) ≤ length out.old }
{
    let done = decode_batch(input, out);
    rt.write_all(&out[..done])
}

// Reads 1,024 blocks, writes what they show, and answers whether to go on.
fn decode_some(rt: &(impl Input + Print)) -> io::Result<bool> {
    let mut input = [0u8; 16384];
    let mut out = [0u8; 65536];
    let got = read_full(&mut rt.reader(), &mut input)?;
    write_batch(rt, &input[..got], &mut out)?;
    Ok(got == 16384)
}

// A proved loop has to end, and nothing says that the input does: the turns count up to a number that no run reaches.
fn main(rt: HostRuntime) -> io::Result<()> {
    for _ in 0..u64::MAX {
        if !decode_some(&rt)? {
            break;
        }
    }
    Ok(())
}
