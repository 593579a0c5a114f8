// A probe built of the blocks of its six faces, and the edge of a probe by its store's length.
#![tactic(auto)]

ghost use Rattle.std.specs.Prelude.{◌≡◌, ◌+◌, ◌*◌, ◌<◌, ◌≤◌, ◌++◌, length, drop};
ghost use Rattle.bcn_spec.specs.Bits.{block_size};
ghost use Rattle.probe_places.specs.Places.{place_size};
ghost use Rattle.probe.specs.Probe.{edge_limit, place_count};
ghost use Rattle.probe_build.specs.Building.{record_count, place_for, tile_for, record_head, record_with, built_of, build_refusal, built_at, BuiltTo};
ghost use Rattle.probe_build.specs.Edges.{edge_of};

use bcn_spec::{Answer, Block};
use probe::ProbePixel;
use probe_places::Place;
use raw_bytes::u32_to_usize;

// What the call answers: its number, and how many records were written.
#[derive(Clone, Copy)]
pub struct Built {
    pub answer: u8,
    pub records: usize,
}

impl Built {
    fn refused(answer: u8) -> Built
        ensures { result ≡ record { answer = answer; records = 0 } }
    {
        Built { answer, records: 0 }
    }

    fn done(records: usize) -> Built
        ensures { result ≡ built_at 0 records }
    {
        Built {
            answer: Answer::DONE,
            records,
        }
    }
}

// The records of a probe of the edge.
fn record_count(edge: usize) -> usize
    requires { edge ≤ edge_limit }
    ensures { (result ≡ record_count edge) × (result ≤ place_count) }
{
    6 * edge * edge
}

// Where record n stands: face by face, row by row.
fn place_of(edge: usize, n: usize) -> Place
    requires { (1 ≤ edge) × (edge ≤ edge_limit) × (n < record_count edge) }
    ensures { result ≡ place_for edge n }
{
    let square = edge * edge;
    Place {
        face: (n / square) as u8,
        column: (n % edge) as u16,
        row: (n % square / edge) as u16,
    }
}

// The tile number of record n.
fn tile_of(first: u32, n: usize) -> u32
    requires { n < place_count }
    ensures { result ≡ tile_for first n }
{
    std::num::wrapping_add_u32(first, n as u32)
}

// The bytes of a record before its block.
fn record_head(tile: u32, format: u8, place: Place) -> [u8; 16]
    ensures { result ≡ record_head tile format place }
{
    let tile = tile.to_le_bytes();
    let column = place.column.to_le_bytes();
    let row = place.row.to_le_bytes();
    [
        tile[0], tile[1], tile[2], tile[3], format, place.face, column[0], column[1], row[0],
        row[1], 0, 0, 0, 0, 0, 0,
    ]
}

// A record into the first 32 bytes of `out`.
fn write_record(blocks: &[u8], n: usize, tile: u32, format: u8, place: Place, out: &mut [u8])
    requires { (n < place_count) × (block_size * n + block_size ≤ length blocks.now) × (place_size ≤ length out.old) }
    ensures { out.new ≡ record_with blocks.now n tile format place ++ drop place_size out.old }
{
    let at = Block::SIZE * n;
    out[..Place::HEAD].copy_from_slice(&record_head(tile, format, place));
    out[Place::HEAD..Place::SIZE].copy_from_slice(&blocks[at..at + Block::SIZE]);
}

// All records.
fn write_records(blocks: &[u8], format: u8, edge: usize, first: u32, out: &mut [u8])
    requires { (1 ≤ edge) × (edge ≤ edge_limit) × (length blocks.now ≡ block_size * record_count edge) × (place_size * record_count edge ≤ length out.old) }
    ensures { out.new ≡ built_of blocks.now format edge first ++ drop (place_size * record_count edge) out.old }
{
    let count = record_count(edge);
    for n in 0..count {
        let tile = tile_of(first, n);
        let place = place_of(edge, n);
        let at = Place::SIZE * n;
        write_record(blocks, n, tile, format, place, &mut out[at..]);
    }
}

// Why nothing is built.
fn build_refusal(size: usize, format: u8, edge: usize, room: usize) -> u8
    ensures { result ≡ build_refusal size format edge room }
{
    if edge == 0 {
        return Answer::BAD_EDGE;
    }
    if edge > ProbePixel::EDGE {
        return Answer::BAD_EDGE;
    }
    if format > 1 {
        return Answer::BAD_FORMAT;
    }
    let count = record_count(edge);
    if size != Block::SIZE * count {
        return Answer::BLOCKS_MISFIT;
    }
    if room < Place::SIZE * count {
        return Answer::SHORT_OUTPUT;
    }
    Answer::DONE
}

// Builds a probe of the blocks of six faces: every record, or nothing.
pub fn probe_build(blocks: &[u8], format: u8, edge: u32, first_tile: u32, out: &mut [u8]) -> Built
    ensures { BuiltTo blocks.now format edge first_tile out.old result out.new }
{
    let side = u32_to_usize(edge);
    let refusal = build_refusal(blocks.len(), format, side, out.len());
    if refusal != Answer::DONE {
        return Built::refused(refusal);
    }
    write_records(blocks, format, side, first_tile, out);
    Built::done(record_count(side))
}

// The edge of a probe whose store has so many bytes; 0 where there is none.
pub fn probe_edge(store: &[u8]) -> u32
    ensures { result ≡ edge_of (length store.now) }
{
    for k in 0..16u32 {
        if Place::SIZE * record_count(u32_to_usize(k + 1)) == store.len() {
            return k + 1;
        }
    }
    0
}
