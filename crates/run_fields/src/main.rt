// Standard input is a run of 17-byte records: a format byte and the sixteen bytes of a block. For each it writes 45 bytes: the answer,
// the format, the mode, twelve endpoints (two bytes each, low byte first), the partition, the pixels in region 1, sixteen indices, all
// zero but the answer on a refusal. A last piece below 17 bytes goes to the call with the block bytes that it has.
#![tactic(auto)]

ghost use Rattle.std.specs.Prelude.{◌≡◌, ◌++◌, ◌+◌, ◌*◌, ◌/◌, ◌<◌, ◌≤◌, length, drop};
ghost use Rattle.laws.specs.Made.{made};
ghost use Rattle.run_fields.specs.Record.{fields_byte, record_bytes};

use bc6h_spec::Fields;
use bcn_spec::Answer;
use raw_bytes::low_or_high;
use run_streams::read_full;
use std::io;

// What is read, what is written for it, and how many are read at a time.
const INPUT_SIZE: usize = 17;

const RECORD_SIZE: usize = 45;

const BATCH: usize = 1024;

// Byte k of what is written for a block.
fn byte_of(answer: u8, fields: Fields, k: usize) -> u8
    requires { k < 45 }
    ensures { result ≡ fields_byte (record { answer = answer; fields = fields }) k }
{
    if k == 0 {
        return answer;
    }
    if k == 1 {
        return fields.format;
    }
    if k == 2 {
        return fields.mode;
    }
    if k < 27 {
        let endpoints = fields.endpoints;
        return low_or_high(endpoints[(k - 3) / 2], k - 3);
    }
    if k == 27 {
        return fields.partition;
    }
    if k == 28 {
        return fields.region1;
    }
    let indices = fields.indices;
    indices[k - 29]
}

// What is written for an answer and its fields.
fn write_record(answer: u8, fields: Fields, out: &mut [u8])
    requires { 45 ≤ length out.old }
    ensures { out.new ≡ made (fields_byte (record { answer = answer; fields = fields })) 45 ++ drop 45 out.old }
{
    for (k, byte) in out[..RECORD_SIZE].iter_mut().enumerate() {
        *byte = byte_of(answer, fields, k);
    }
}

// What is written for a piece: what the field call answers of it, all zero but the answer where it refuses.
fn extract_record(piece: &[u8], out: &mut [u8])
    requires { (1 ≤ length piece.now) × (45 ≤ length out.old) }
    ensures { out.new ≡ record_bytes piece.now ++ drop 45 out.old }
{
    match bc6_fields::block_fields(&piece[1..], piece[0]) {
        Ok(fields) => write_record(Answer::DONE, fields, out),
        Err(refusal) => write_record(refusal.number(), Fields::none(), out),
    }
}

// What is written for the records of `input`, and how many bytes that is.
fn write_records(input: &[u8], out: &mut [u8]) -> usize
    requires { 45 * ((length input.now + 16) / 17) ≤ length out.old }
    ensures { result ≡ 45 * ((length input.now + 16) / 17) }
{
    let count = input.len().div_ceil(INPUT_SIZE);
    for (piece, record) in input
        .chunks(INPUT_SIZE)
        .zip(out.chunks_exact_mut(RECORD_SIZE))
    {
        extract_record(piece, record);
    }
    RECORD_SIZE * count
}

// The same, written in one go.
fn write_batch(rt: &impl Print, input: &[u8], out: &mut [u8]) -> io::Result<()>
    requires { 45 * ((length input.now + 16) / 17) ≤ length out.old }
{
    let done = write_records(input, out);
    rt.write_all(&out[..done])
}

// Reads a batch of records, writes their fields, and answers whether to go on.
fn extract_some(rt: &(impl Input + Print)) -> io::Result<bool> {
    let mut input = [0u8; INPUT_SIZE * BATCH];
    let mut out = [0u8; RECORD_SIZE * BATCH];
    let got = read_full(&mut rt.reader(), &mut input)?;
    write_batch(rt, &input[..got], &mut out)?;
    Ok(got == INPUT_SIZE * BATCH)
}

// A proved loop has to end, and nothing says that the input does: the turns count up to a number that no run reaches.
fn main(rt: HostRuntime) -> io::Result<()> {
    for _ in 0..u64::MAX {
        if !extract_some(&rt)? {
            break;
        }
    }
    Ok(())
}
