// Standard input is a field record as 32 numbers of two bytes, low byte first, in the order of bc6_numbers. It writes 97 bytes: the answer of
// `fields_pixels`, and the 48 values that the record shows, two bytes each, low byte first, all zero on a refusal. Input of another length
// holds no record.
#![tactic(auto)]

ghost use Rattle.std.specs.Prelude.{◌≡◌, ◌++◌, ◌<◌, ◌≤◌, length, drop};
ghost use Rattle.laws.specs.Made.{made};
ghost use Rattle.bc6_numbers.specs.Numbers.{number_count};
ghost use Rattle.run_streams.specs.Output.{Outgoing};
ghost use Rattle.run_show.specs.Picture.{input_size, output_size, number_in, fields_in, picture_byte, picture_bytes};

use bc6_numbers::NUMBERS;
use bc6h_spec::{Fields, Picture};
use bcn_spec::answer_number;
use raw_bytes::{low_or_high, u16_at};
use run_streams::{Input, first_bytes, read_input, write_text};

const INPUT_SIZE: usize = 64;

const OUTPUT_SIZE: usize = 97;

fn numbers_in(input: &[u8]) -> [u16; NUMBERS]
    requires { length input.now ≡ input_size }
    ensures { result ≡ made (number_in input.now) number_count }
{
    let mut numbers = [0u16; NUMBERS];
    for (k, number) in numbers.iter_mut().enumerate() {
        *number = u16_at(input, 2 * k);
    }
    numbers
}

fn fields_in(input: &[u8]) -> Fields
    ensures { result ≡ fields_in input.now }
{
    if input.len() != INPUT_SIZE {
        return Fields::none();
    }
    let numbers = numbers_in(input);
    bc6_numbers::fields_from(&numbers)
}

// Byte k of what is written: the answer, then each value's low byte and its high byte.
fn byte_of(answer: u8, values: [u16; Picture::VALUES], k: usize) -> u8
    requires { k < output_size }
    ensures { result ≡ picture_byte answer values k }
{
    if k == 0 {
        return answer;
    }
    low_or_high(values[(k - 1) / 2], k - 1)
}

fn put_answer(answer: u8, values: [u16; Picture::VALUES], out: &mut [u8])
    requires { output_size ≤ length out.old }
    ensures { out.new ≡ made (picture_byte answer values) output_size ++ drop output_size out.old }
{
    for (k, byte) in out[..OUTPUT_SIZE].iter_mut().enumerate() {
        *byte = byte_of(answer, values, k);
    }
}

fn show(input: &[u8], out: &mut [u8])
    requires { output_size ≤ length out.old }
    ensures { out.new ≡ picture_bytes input.now ++ drop output_size out.old }
{
    let fields = fields_in(input);
    let mut values = [0u16; Picture::VALUES];
    let told = bc6_palette::fields_pixels(fields, &mut values);
    put_answer(answer_number(told), values, out);
}

// What goes out is the definition of what was read.
fn write_picture(rt: &(impl Print + Eprint), input: &[u8], size: usize, out: &[u8], end: usize)
    requires { Outgoing picture_bytes input_size input.now size out.now end }
{
    write_text(rt, out, end);
}

// One byte more than a record is read, so that a longer input is told from it.
fn main(rt: HostRuntime) {
    let mut input = [0u8; INPUT_SIZE + 1];
    let Input::Whole(size) = read_input(&rt, &mut input) else {
        return;
    };
    let mut out = [0u8; OUTPUT_SIZE];
    show(first_bytes(&input, size), &mut out);
    write_picture(&rt, &input, size, &out, OUTPUT_SIZE);
}
