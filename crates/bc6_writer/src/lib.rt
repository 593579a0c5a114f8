// A block written from its fields: the way back of crate bc6_fields.
#![tactic(auto)]

ghost use Rattle.std.specs.Prelude.{◌≡◌, ◌/◌, ◌%◌, ◌<◌, ◌≤◌, length};
ghost use Rattle.laws.specs.Bit.{bit, low_bytes};
ghost use Rattle.laws.specs.Made.{made};
ghost use Rattle.laws.specs.Packed.{packed};
ghost use Rattle.bc6h_spec.specs.Layout.{row};
ghost use Rattle.bc6h_spec.specs.Fields.{code_of, index_of, Valid};
ghost use Rattle.bc6h_spec.specs.Writer.{scattered, at_place, number_from};
ghost use Rattle.bc6_fields.specs.Places.{entry};
ghost use Rattle.bcn_util.specs.Stream.{number};
ghost use Rattle.bc6_writer.specs.Parts.{InPlaces, stored_size};
ghost use Rattle.bc6_writer.specs.Call.{BlockWritten};
ghost use Rattle.bcn_spec.specs.Refusals.{answer_of};

use bc6_valid::{is_valid, second_fixup, stored_bits};
use bc6h_spec::Fields;
use bcn_spec::{Block, Refusal};
use bcn_util::BitStream;

// ---- the bits before the indices

// The bits that stand for a mode.
fn mode_code(mode: u8) -> u16
    requires { (1 ≤ mode) × (mode ≤ 14) }
    ensures { result ≡ code_of mode }
{
    if mode <= 2 {
        return (mode - 1) as u16;
    }
    if mode <= 10 {
        return (4 * mode - 10) as u16;
    }
    (4 * mode - 41) as u16
}

// The number at a place of the table: an endpoint's value, the mode's bits, the partition.
fn place_value(fields: Fields, place: usize) -> u16
    requires { (1 ≤ fields.mode) × (fields.mode ≤ 14) × (place < 14) }
    ensures { result ≡ at_place fields place }
{
    if place == 12 {
        return mode_code(fields.mode);
    }
    if place == 13 {
        return fields.partition as u16;
    }
    let endpoints = fields.endpoints;
    endpoints[place]
}

fn places_of(fields: Fields) -> [u16; 14]
    requires { (1 ≤ fields.mode) × (fields.mode ≤ 14) }
    ensures { result ≡ made (at_place fields) 14 }
{
    let mut places = [0u16; 14];
    for (place, value) in places.iter_mut().enumerate() {
        *value = place_value(fields, place);
    }
    places
}

// The bit that a code names.
fn bit_of(places: [u16; 14], code: u8) -> u64
    requires { code / 16 < 14 }
    ensures { result ≡ bit (entry places (code / 16)) (code % 16) }
{
    let place = (code / 16) as usize;
    ((places[place] >> (code % 16)) % 2) as u64
}

// The bits that the codes name, the first the lowest.
fn scattered_bits(codes: &[u8], places: [u16; 14]) -> u64
    requires { (length codes.now ≤ 64) × InPlaces codes.now }
    ensures { result ≡ scattered codes.now (entry places) }
{
    let mut bits = 0u64;
    for code in codes.iter().rev() {
        bits = bit_of(places, *code) + 2 * bits;
    }
    bits
}

// The bits before the indices, as the table of 1,080 codes says.
fn table_words(mode: usize, places: [u16; 14]) -> BitStream
    requires { (1 ≤ mode) × (mode ≤ 14) }
    ensures { number result ≡ scattered (row mode) (entry places) }
{
    let table = bc6_table::destinations::codes();
    let codes = bc6_table::row_of(&table, mode);
    let lo = scattered_bits(&codes[..64], places);
    let hi = scattered_bits(&codes[64..], places);
    BitStream::of(lo, hi)
}

// ---- the block

// The indices as stored, pixel 0 lowest.
fn packed_indices(fields: Fields) -> u64
    requires { Valid fields }
    ensures { result ≡ packed (stored_size fields) (index_of fields) 16 }
{
    let fixup = second_fixup(fields.mode, fields.partition);
    let indices = fields.indices;
    let mut bits = 0u64;
    let mut at = 0u64;
    for (pixel, index) in indices.iter().enumerate() {
        bits = ((*index as u64) << at) + bits;
        at = at + (stored_bits(fields.mode, fixup, pixel) as u64);
    }
    bits
}

fn block_words(fields: Fields) -> BitStream
    requires { Valid fields }
    ensures { number result ≡ number_from fields }
{
    let mode = fields.mode as usize;
    let low = table_words(mode, places_of(fields));
    let above = (bc6_table::table_bits(mode) - 64) as u64;
    let lo = low.lo;
    let hi = (packed_indices(fields) << above) + low.hi;
    BitStream::of(lo, hi)
}

fn write_bytes(words: BitStream, out: &mut [u8])
    requires { length out.old ≡ 16 }
    ensures { out.new ≡ low_bytes 16 (number words) }
{
    out[..8].copy_from_slice(&words.lo.to_le_bytes());
    out[8..].copy_from_slice(&words.hi.to_le_bytes());
}

// The block of a valid record, into sixteen lent bytes.
pub fn write_block(fields: Fields, out: &mut [u8]) -> Result<(), Refusal>
    ensures { BlockWritten fields out.old (answer_of result) out.new }
{
    if 1 < fields.format {
        return Err(Refusal::BadFormat);
    }
    if !is_valid(fields) {
        return Err(Refusal::InvalidFields);
    }
    if out.len() != Block::SIZE {
        return Err(Refusal::BadBuffer);
    }
    write_bytes(block_words(fields), out);
    Ok(())
}
