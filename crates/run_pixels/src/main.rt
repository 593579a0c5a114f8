// Standard input is a run of 17-byte records: a format byte and the sixteen bytes of a block. For each it writes 100 bytes: the answer,
// the mode, the count of minus infinities and 48 values of two bytes each, low byte first, all zero on a refusal. A last piece below 17 bytes goes to the call with the
// block bytes that it has.
#![tactic(auto)]

ghost use Rattle.std.specs.Prelude.{◌≡◌, ◌++◌, ◌+◌, ◌*◌, ◌/◌, ◌<◌, ◌≤◌, length, drop};
ghost use Rattle.laws.specs.Made.{made};
ghost use Rattle.run_pixels.specs.Shown.{value_byte, shown_bytes, record_bytes};

use bc6::Shown;
use bcn_spec::Answer;
use run_streams::read_full;
use std::io;

// The bytes of what is read, and of what is written for it.
const SIZE: usize = 17;

const SHOWN: usize = 100;

// What is shown of a block that is refused.
const NOTHING: Shown = Shown {
    mode: 0,
    infinite: 0,
};

// The values' bytes, the low one of each first.
fn put_values(values: [u16; 48], out: &mut [u8])
    requires { 96 ≤ length out.old }
    ensures { out.new ≡ made (value_byte values) 96 ++ drop 96 out.old }
{
    for (j, value) in values.iter().enumerate() {
        let [low, high] = value.to_le_bytes();
        out[2 * j] = low;
        out[2 * j + 1] = high;
    }
}

fn put_shown(answer: u8, shown: Shown, values: [u16; 48], out: &mut [u8])
    requires { 100 ≤ length out.old }
    ensures { out.new ≡ shown_bytes (record { answer = answer; mode = shown.mode; infinite = shown.infinite }) values ++ drop 100 out.old }
{
    let [low, high] = shown.infinite.to_le_bytes();
    out[0] = answer;
    out[1] = shown.mode;
    out[2] = low;
    out[3] = high;
    put_values(values, &mut out[4..]);
}

fn decode_record(piece: &[u8], out: &mut [u8])
    requires { (1 ≤ length piece.now) × (100 ≤ length out.old) }
    ensures { out.new ≡ record_bytes piece.now ++ drop 100 out.old }
{
    let format = piece[0];
    let mut values = [0u16; 48];
    match bc6::block_pixels(&piece[1..], format, &mut values) {
        Ok(shown) => put_shown(Answer::DONE, shown, values, out),
        Err(refusal) => put_shown(refusal.number(), NOTHING, values, out),
    }
}

// What is written for the records of `input`, and how many bytes that is.
fn decode_records(input: &[u8], out: &mut [u8]) -> usize
    requires { 100 * ((length input.now + 16) / 17) ≤ length out.old }
    ensures { result ≡ 100 * ((length input.now + 16) / 17) }
{
    let count = input.len().div_ceil(SIZE);
    for (piece, shown) in input.chunks(SIZE).zip(out.chunks_exact_mut(SHOWN)) {
        decode_record(piece, shown);
    }
    SHOWN * count
}

// The same, written in one go.
fn write_batch(rt: &impl Print, input: &[u8], out: &mut [u8]) -> io::Result<()>
    requires { 100 * ((length input.now + 16) / 17) ≤ length out.old }
{
    let done = decode_records(input, out);
    rt.write_all(&out[..done])
}

// Reads 1,024 records, writes what they show, and answers whether to go on.
fn decode_some(rt: &(impl Input + Print)) -> io::Result<bool> {
    let mut input = [0u8; 17408];
    let mut out = [0u8; 102400];
    let got = read_full(&mut rt.reader(), &mut input)?;
    write_batch(rt, &input[..got], &mut out)?;
    Ok(got == 17408)
}

// A proved loop has to end, and nothing says that the input does: the turns count up to a number that no run reaches.
fn main(rt: HostRuntime) -> io::Result<()> {
    for _ in 0..u64::MAX {
        if !decode_some(&rt)? {
            break;
        }
    }
    Ok(())
}
