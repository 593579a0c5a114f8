// The fields of a block as 32 numbers, a block from them, and what they show, for C and Rust.
ghost use Rattle.bc6_numbers.specs.Numbers.{fields_from};
ghost use Rattle.bc6_palette.specs.Call.{FieldsShown};
ghost use Rattle.bc6_writer.specs.Call.{BlockWritten};
ghost use Rattle.knotpasture.specs.Fields.{FieldsCalled};

use crate::two_bytes;
use bc6_numbers::NUMBERS;
use bcn_spec::{Answer, answer_number};

#[unsafe(no_mangle)]
pub extern "C" fn knot_block_fields(block: &[u8], format: u8, numbers: &mut [u16]) -> u32
    ensures { FieldsCalled block.now format numbers.old result numbers.new }
{
    let fields = match bc6_fields::block_fields(block, format) {
        Ok(fields) => fields,
        Err(refusal) => return refusal.number() as u32,
    };
    if numbers.len() < NUMBERS {
        return Answer::SHORT_OUTPUT as u32;
    }
    bc6_numbers::write_numbers(fields, numbers);
    two_bytes(Answer::DONE, fields.mode)
}

#[unsafe(no_mangle)]
pub extern "C" fn knot_write_block(numbers: &[u16], out: &mut [u8]) -> u32
    ensures { BlockWritten (fields_from numbers.now) out.old result out.new }
{
    answer_number(bc6_writer::write_block(bc6_numbers::fields_from(numbers), out)) as u32
}

#[unsafe(no_mangle)]
pub extern "C" fn knot_fields_pixels(numbers: &[u16], out: &mut [u16]) -> u32
    ensures { FieldsShown (fields_from numbers.now) out.old result out.new }
{
    answer_number(bc6_palette::fields_pixels(bc6_numbers::fields_from(numbers), out)) as u32
}
