// Which field records a block has.
#![tactic(auto)]

ghost use Rattle.std.specs.Prelude.{◌≡◌, ◌^◌, ◌<◌, ◌≤◌, ltb};
ghost use Rattle.laws.specs.Every.{below};
ghost use Rattle.bc6h_spec.specs.Layout.{own_width, width};
ghost use Rattle.bc6h_spec.specs.Regions.{region1_of};
ghost use Rattle.bc6h_spec.specs.Fields.{index_bits};
ghost use Rattle.bc6_mode.specs.Modes.{bits_for};
ghost use Rattle.bc6_valid.specs.Validity.{endpoint_fits, index_fits, valid};
ghost use Rattle.bc6_valid.specs.Sizes.{second_fixup, index_size};

use bc6_mode::ModeBits;
use bc6h_spec::Fields;
use bcn_data::Subset2Map;

fn fits(value: u16, bits: u8) -> bool
    requires { bits ≤ 16 }
    ensures { result ≡ ltb value (2 ^ bits) }
{
    (value as u32) < (1u32 << bits)
}

// How many bits a channel has in the endpoints after the first.
fn own_bits(mode: u8, bits: ModeBits, channel: usize) -> u8
    requires { (bits ≡ bits_for mode) × (channel < 3) }
    ensures { result ≡ own_width mode channel }
{
    match channel {
        0 => bits.r,
        1 => bits.g,
        _ => bits.b,
    }
}

// How many bits an endpoint's value has.
fn place_bits(mode: u8, bits: ModeBits, place: usize) -> u8
    requires { (bits ≡ bits_for mode) × (place < 12) }
    ensures { result ≡ width mode place }
{
    if place < 3 {
        return bits.a0;
    }
    if place < 6 {
        return own_bits(mode, bits, place % 3);
    }
    if mode <= 10 {
        return own_bits(mode, bits, place % 3);
    }
    0
}

fn endpoints_fit(fields: Fields) -> bool
    requires { (1 ≤ fields.mode) × (fields.mode ≤ 14) }
    ensures { result ≡ below (endpoint_fits fields) 12 }
{
    let bits = ModeBits::of(fields.mode);
    let endpoints = fields.endpoints;
    for (place, value) in endpoints.iter().enumerate() {
        if !fits(*value, place_bits(fields.mode, bits, place)) {
            return false;
        }
    }
    true
}

fn partition_fits(mode: u8, partition: u8) -> bool
    ensures { result ≡ ltb partition (2 ^ width mode 13) }
{
    if mode <= 10 {
        partition < 32
    } else {
        partition < 1
    }
}

// How many pixels lie in region 1.
fn region_count(mode: u8, partition: u8) -> u32
    requires { partition < 32 }
    ensures { result ≡ region1_of mode partition }
{
    if mode <= 10 {
        Subset2Map::of(partition as usize).count_ones()
    } else {
        0
    }
}

// The fix-up pixel of region 1; in one region there is pixel 0 alone.
pub fn second_fixup(mode: u8, partition: u8) -> usize
    requires { partition < 32 }
    ensures { result ≡ second_fixup mode partition }
{
    if mode <= 10 {
        let map = Subset2Map::of(partition as usize);
        map.fixup_index_2 as usize
    } else {
        0
    }
}

fn index_bits(mode: u8) -> u8
    ensures { result ≡ index_bits mode }
{
    if mode <= 10 { 3 } else { 4 }
}

// How many bits of a pixel's index are stored.
pub fn stored_bits(mode: u8, fixup: usize, pixel: usize) -> u8
    ensures { result ≡ index_size mode fixup pixel }
{
    let bits = index_bits(mode);
    if pixel == 0 {
        return bits - 1;
    }
    if pixel == fixup {
        return bits - 1;
    }
    bits
}

fn indices_fit(fields: Fields) -> bool
    requires { fields.partition < 32 }
    ensures { result ≡ below (index_fits fields) 16 }
{
    let fixup = second_fixup(fields.mode, fields.partition);
    let indices = fields.indices;
    for (pixel, index) in indices.iter().enumerate() {
        if !fits(*index as u16, stored_bits(fields.mode, fixup, pixel)) {
            return false;
        }
    }
    true
}

// Whether the record is one that a block has.
pub fn is_valid(fields: Fields) -> bool
    ensures { result ≡ valid fields }
{
    if 1 < fields.format {
        return false;
    }
    if fields.mode < 1 {
        return false;
    }
    if 14 < fields.mode {
        return false;
    }
    if !endpoints_fit(fields) {
        return false;
    }
    if !partition_fits(fields.mode, fields.partition) {
        return false;
    }
    if (fields.region1 as u32) != region_count(fields.mode, fields.partition) {
        return false;
    }
    indices_fit(fields)
}
