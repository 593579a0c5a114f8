// A field record as a run of numbers, and back: how C and the program run_write hold one.
#![tactic(auto)]

ghost use Rattle.std.specs.Prelude.{◌≡◌, ◌++◌, ◌<◌, ◌≤◌, length, drop};
ghost use Rattle.laws.specs.Made.{made};
ghost use Rattle.bc6_numbers.specs.Numbers.{number_count, number_at, numbers_of, byte_from, endpoint_from, index_from, fields_from};

use bc6h_spec::Fields;

// How many numbers a record is.
pub const NUMBERS: usize = 32;

// Number k of a field record: format, mode, twelve endpoint values, partition, pixels in region 1, sixteen indices.
fn number_at(fields: Fields, k: usize) -> u16
    requires { k < number_count }
    ensures { result ≡ number_at fields k }
{
    if k < 1 {
        return fields.format as u16;
    }
    if k < 2 {
        return fields.mode as u16;
    }
    if k < 14 {
        let endpoints = fields.endpoints;
        return endpoints[k - 2];
    }
    if k < 15 {
        return fields.partition as u16;
    }
    if k < 16 {
        return fields.region1 as u16;
    }
    let indices = fields.indices;
    indices[k - 16] as u16
}

pub fn write_numbers(fields: Fields, numbers: &mut [u16])
    requires { number_count ≤ length numbers.old }
    ensures { numbers.new ≡ numbers_of fields ++ drop number_count numbers.old }
{
    for (k, number) in numbers[..NUMBERS].iter_mut().enumerate() {
        *number = number_at(fields, k);
    }
}

// A number that one byte holds; 255, which no valid record has, stands for what it cannot hold.
fn byte_from(number: u16) -> u8
    ensures { result ≡ byte_from number }
{
    if number < 255 { number as u8 } else { 255 }
}

fn endpoints_from(numbers: &[u16]) -> [u16; 12]
    requires { length numbers.now ≡ number_count }
    ensures { result ≡ made (endpoint_from numbers.now) 12 }
{
    let mut endpoints = [0u16; 12];
    endpoints.copy_from_slice(&numbers[2..14]);
    endpoints
}

fn indices_from(numbers: &[u16]) -> [u8; 16]
    requires { length numbers.now ≡ number_count }
    ensures { result ≡ made (index_from numbers.now) 16 }
{
    let mut indices = [0u8; 16];
    for (k, index) in indices.iter_mut().enumerate() {
        *index = byte_from(numbers[k + 16]);
    }
    indices
}

// The record that the numbers hold; none where they are not 32.
pub fn fields_from(numbers: &[u16]) -> Fields
    ensures { result ≡ fields_from numbers.now }
{
    if numbers.len() != NUMBERS {
        return Fields::none();
    }
    Fields {
        format: byte_from(numbers[0]),
        mode: byte_from(numbers[1]),
        endpoints: endpoints_from(numbers),
        partition: byte_from(numbers[14]),
        region1: byte_from(numbers[15]),
        indices: indices_from(numbers),
    }
}
