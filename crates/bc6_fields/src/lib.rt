// From a block's bits to its fields.
#![tactic(auto)]

ghost use Rattle.std.specs.Prelude.{◌≡◌, ◌≤◌, length};
ghost use Rattle.laws.specs.Made.{made};
ghost use Rattle.bcn_util.specs.Stream.{number};
ghost use Rattle.bcn_util.specs.Indexed.{index_at};
ghost use Rattle.bc6h_spec.specs.Layout.{row};
ghost use Rattle.bc6h_spec.specs.Fields.{gathered, fields_at, fields_of};
ghost use Rattle.bc6_fields.specs.Call.{Extracted, told};
ghost use Rattle.bc6_fields.specs.Places.{entry};

use bc6_mode::extract_mode;
use bc6_table::read_places;
use bc6h_spec::Fields;
use bcn_data::Subset2Map;
use bcn_spec::{Block, Refusal};
use bcn_util::{BitStream, Indexes};

// Of the fourteen places the endpoints' values.
fn endpoints_of(places: [u16; 14]) -> [u16; 12]
    ensures { result ≡ made (entry places) 12 }
{
    let mut endpoints = [0u16; 12];
    endpoints.copy_from_slice(&places[..12]);
    endpoints
}

fn indices_of(indexes: Indexes) -> [u8; 16]
    requires { indexes.bits ≤ 4 }
    ensures { result ≡ made (index_at indexes) 16 }
{
    let mut indices = [0u8; 16];
    for (pixel, index) in indices.iter_mut().enumerate() {
        *index = indexes.get_index(pixel as u64);
    }
    indices
}

// The fields of a mode, once its endpoints and, where there are two regions, its partition are read.
fn fields_from(
    format: u8,
    mode: usize,
    endpoints: [u16; 12],
    partition: u16,
    stream: BitStream,
) -> Fields
    requires { ((1 ≤ mode) × (mode ≤ 14)) × (endpoints ≡ made (gathered (row mode) (number stream)) 12) × ((mode ≤ 10) → partition ≡ gathered (row mode) (number stream) 13) }
    ensures { result ≡ fields_at format mode (number stream) }
{
    if mode <= 10 {
        let map = Subset2Map::of(partition as usize);
        let rest = stream.skip(82);
        let indexes = Indexes::new_p2(3, rest, map.fixup_index_2 as u64);
        return Fields {
            format,
            mode: mode as u8,
            endpoints,
            partition: partition as u8,
            region1: map.count_ones() as u8,
            indices: indices_of(indexes),
        };
    }
    let rest = stream.skip(65);
    let indexes = Indexes::new_p1(4, rest);
    Fields {
        format,
        mode: mode as u8,
        endpoints,
        partition: 0,
        region1: 0,
        indices: indices_of(indexes),
    }
}

// The fields of a block of a format, read bit by bit as the table says. A reserved mode has none.
pub fn fields_of(block: &[u8], format: u8) -> Fields
    requires { length block.now ≡ 16 }
    ensures { result ≡ fields_of format block.now }
{
    let stream = BitStream::new(block);
    let mode = extract_mode(stream);
    if mode == 0 {
        return Fields::none();
    }
    let places = read_places(mode, stream);
    fields_from(format, mode, endpoints_of(places), places[13], stream)
}

// The fields of a block, unsigned (format 0) or signed (format 1).
pub fn block_fields(block: &[u8], format: u8) -> Result<Fields, Refusal>
    ensures { Extracted block.now format (told result) }
{
    if 1 < format {
        return Err(Refusal::BadFormat);
    }
    if block.len() != Block::SIZE {
        return Err(Refusal::BlockNot16);
    }
    let fields = fields_of(block, format);
    if fields.mode == 0 {
        return Err(Refusal::ReservedMode);
    }
    Ok(fields)
}
