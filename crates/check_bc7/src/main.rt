// Standard input is a run of BC7 blocks, sixteen bytes each. For each it writes 66 bytes: the answer, the mode, and 64 bytes, four for each
// pixel, all zero on a refusal. A last piece below sixteen bytes goes to the call as it is, which answers 2.
#![tactic(auto)]

ghost use Rattle.std.specs.Prelude.{◌≡◌, ◌++◌, ◌*◌, ◌^◌, ◌<◌, ◌≤◌, length, drop};
ghost use Rattle.laws.specs.Made.{made};
ghost use Rattle.check_bc7.specs.Shown.{shown_byte, shown_of, shown_bytes, piece_count, PieceEnd, Decoded};

use bcn_spec::{Answer, Block};
use run_streams::read_full;
use std::io;

// What the call says of a piece.
#[derive(Clone, Copy)]
struct Shown {
    answer: u8,
    mode: u8,
    bytes: [u8; 64],
}

impl Shown {
    const SIZE: usize = 66;

    fn of(piece: &[u8]) -> Shown
        ensures { result ≡ shown_of piece.now }
    {
        let mut bytes = [0u8; 64];
        match bc7::bc7_pixels(piece, &mut bytes) {
            Ok(shown) => Shown {
                answer: Answer::DONE,
                mode: shown.mode,
                bytes,
            },
            Err(refusal) => Shown {
                answer: refusal.number(),
                mode: 0,
                bytes,
            },
        }
    }

    // The 66 bytes that are written.
    fn put(self, out: &mut [u8])
        requires { 66 ≤ length out.old }
        ensures { out.new ≡ made (shown_byte self) 66 ++ drop 66 out.old }
    {
        out[0] = self.answer;
        out[1] = self.mode;
        out[2..66].copy_from_slice(&self.bytes);
    }
}

fn decode_piece(piece: &[u8], out: &mut [u8])
    requires { 66 ≤ length out.old }
    ensures { out.new ≡ shown_bytes piece.now ++ drop 66 out.old }
{
    Shown::of(piece).put(out);
}

// Where a piece that starts at `at` ends: after a block, or with the input.
fn piece_end(at: usize, size: usize) -> usize
    requires { (at < size) × (size < 2 ^ 63) }
    ensures { PieceEnd at size result }
{
    if size - at < Block::SIZE {
        size
    } else {
        at + Block::SIZE
    }
}

// What is written for the pieces of `input`, and how many bytes that is.
fn decode_pieces(input: &[u8], out: &mut [u8]) -> usize
    requires { 66 * piece_count (length input.now) ≤ length out.old }
    ensures { Decoded input.now out.old result out.new }
{
    let size = input.len();
    let count = (size + 15) / 16;
    for i in 0..count {
        let at = Block::SIZE * i;
        let end = piece_end(at, size);
        let to = Shown::SIZE * i;
        decode_piece(&input[at..end], &mut out[to..]);
    }
    Shown::SIZE * count
}

// The same, written in one go.
fn write_batch(rt: &impl Print, input: &[u8], out: &mut [u8]) -> io::Result<()>
    requires { 66 * piece_count (length input.now) ≤ length out.old }
{
    let done = decode_pieces(input, out);
    rt.write_all(&out[..done])
}

// Reads 1,024 blocks, writes what they show, and answers whether to go on.
fn decode_some(rt: &(impl Input + Print)) -> io::Result<bool> {
    let mut input = [0u8; 16384];
    let mut out = [0u8; 67584];
    let got = read_full(&mut rt.reader(), &mut input)?;
    write_batch(rt, &input[..got], &mut out)?;
    Ok(got == 16384)
}

// A proved loop has to end, and nothing says that the input does: the turns count up to a number that no run reaches.
fn main(rt: HostRuntime) -> io::Result<()> {
    for _ in 0..u64::MAX {
        if !decode_some(&rt)? {
            break;
        }
    }
    Ok(())
}
