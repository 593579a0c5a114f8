// Standard input is a run of 44-byte field records, what run_fields writes after its answers: the format, the mode, twelve endpoints
// (two bytes each, low byte first), the partition, the pixels in region 1, sixteen indices. For each it writes 17 bytes: the answer and
// the block, zeros on a refusal. A last piece below 44 bytes is no record, and refused as an invalid one.
#![tactic(auto)]

ghost use Rattle.std.specs.Prelude.{◌≡◌, ◌++◌, ◌+◌, ◌*◌, ◌/◌, ◌<◌, ◌≤◌, length, drop};
ghost use Rattle.laws.specs.Made.{made};
ghost use Rattle.bc6_numbers.specs.Numbers.{number_count};
ghost use Rattle.run_write.specs.Record.{number_in, fields_in, answer_byte, record_bytes};

use bc6_numbers::NUMBERS;
use bc6h_spec::Fields;
use bcn_spec::answer_number;
use raw_bytes::u16_at;
use run_streams::read_full;
use std::io;

// What is read, what is written for it, and how many are read at a time.
const RECORD_SIZE: usize = 44;

const OUTPUT_SIZE: usize = 17;

const BATCH: usize = 1024;

// Number k of the record that a piece holds.
fn number_in(piece: &[u8], k: usize) -> u16
    requires { (length piece.now ≡ 44) × (k < number_count) }
    ensures { result ≡ number_in piece.now k }
{
    if k < 2 {
        return u16::from(piece[k]);
    }
    if k < 14 {
        return u16_at(piece, 2 * k - 2);
    }
    u16::from(piece[k + 12])
}

fn numbers_in(piece: &[u8]) -> [u16; NUMBERS]
    requires { length piece.now ≡ 44 }
    ensures { result ≡ made (number_in piece.now) number_count }
{
    let mut numbers = [0u16; NUMBERS];
    for (k, number) in numbers.iter_mut().enumerate() {
        *number = number_in(piece, k);
    }
    numbers
}

fn fields_in(piece: &[u8]) -> Fields
    ensures { result ≡ fields_in piece.now }
{
    if piece.len() != RECORD_SIZE {
        return Fields::none();
    }
    let numbers = numbers_in(piece);
    bc6_numbers::fields_from(&numbers)
}

// What is written for a record: the answer, then the block.
fn put_answer(answer: u8, block: [u8; 16], out: &mut [u8])
    requires { 17 ≤ length out.old }
    ensures { out.new ≡ made (answer_byte answer block) 17 ++ drop 17 out.old }
{
    out[0] = answer;
    out[1..OUTPUT_SIZE].copy_from_slice(&block);
}

fn write_record(piece: &[u8], out: &mut [u8])
    requires { 17 ≤ length out.old }
    ensures { out.new ≡ record_bytes piece.now ++ drop 17 out.old }
{
    let fields = fields_in(piece);
    let mut block = [0u8; 16];
    let told = bc6_writer::write_block(fields, &mut block);
    put_answer(answer_number(told), block, out);
}

// What is written for the records of `input`, and how many bytes that is.
fn write_records(input: &[u8], out: &mut [u8]) -> usize
    requires { 17 * ((length input.now + 43) / 44) ≤ length out.old }
    ensures { result ≡ 17 * ((length input.now + 43) / 44) }
{
    let count = input.len().div_ceil(RECORD_SIZE);
    for (piece, written) in input
        .chunks(RECORD_SIZE)
        .zip(out.chunks_exact_mut(OUTPUT_SIZE))
    {
        write_record(piece, written);
    }
    OUTPUT_SIZE * count
}

// The same, written in one go.
fn write_batch(rt: &impl Print, input: &[u8], out: &mut [u8]) -> io::Result<()>
    requires { 17 * ((length input.now + 43) / 44) ≤ length out.old }
{
    let done = write_records(input, out);
    rt.write_all(&out[..done])
}

// Reads a batch of records, writes their blocks, and answers whether to go on.
fn write_some(rt: &(impl Input + Print)) -> io::Result<bool> {
    let mut input = [0u8; RECORD_SIZE * BATCH];
    let mut out = [0u8; OUTPUT_SIZE * BATCH];
    let got = read_full(&mut rt.reader(), &mut input)?;
    write_batch(rt, &input[..got], &mut out)?;
    Ok(got == RECORD_SIZE * BATCH)
}

// A proved loop has to end, and nothing says that the input does: the turns count up to a number that no run reaches.
fn main(rt: HostRuntime) -> io::Result<()> {
    for _ in 0..u64::MAX {
        if !write_some(&rt)? {
            break;
        }
    }
    Ok(())
}
