// Records with a place, the moves between them and 24-byte records, and the probe, for C and Rust.
ghost use Rattle.std.specs.Prelude.{◌≡◌, ◌≤◌, length};
ghost use Rattle.store_records.specs.Store.{most_records};
ghost use Rattle.probe_places.specs.Readings.{placed_refusal};
ghost use Rattle.probe.specs.Probe.{probe_fault};
ghost use Rattle.probe_build.specs.Building.{BuiltTo};
ghost use Rattle.probe_build.specs.Edges.{edge_of};
ghost use Rattle.probe_open.specs.Open.{table_answer};
ghost use Rattle.knotpasture.specs.Probe.{placed_offset, moved_word, PlacedReadingCalled, PlaceCalled, UnplaceCalled, PutCalled, pixel_word, PixelCalled, fault_word, FaceCalled, OpenCalled};

use probe::ProbePixel;
use probe_moves::Moved;
use probe_places::{Fault, Place, PlacedReading};

#[unsafe(no_mangle)]
pub extern "C" fn knot_placed_record_at(
    store: &[u8],
    n: usize,
    column: &mut u16,
    row: &mut u16,
) -> u64
    ensures { PlacedReadingCalled store.now n result column.new row.new }
{
    let reading = probe_places::placed_record_at(store, n);
    match reading {
        PlacedReading::Record(record) => {
            let place = record.place;
            *column = place.column;
            *row = place.row;
            (record.format as u64) * 0x100
                + (place.face as u64) * 0x10000
                + (record.tile as u64) * 0x100000000
        }
        PlacedReading::Refused(number) => {
            *column = 0;
            *row = 0;
            number as u64
        }
    }
}

#[unsafe(no_mangle)]
pub extern "C" fn knot_placed_record_block(store: &[u8], n: usize) -> usize
    ensures { result ≡ placed_offset (placed_refusal store.now n) n }
{
    let PlacedReading::Record(_) = probe_places::placed_record_at(store, n) else {
        return 0;
    };
    n * Place::SIZE + Place::HEAD
}

// The number, the count and the faulty record of a move.
fn moved_word(moved: Moved) -> u64
    requires { (moved.records ≤ most_records) × (moved.faulty ≤ most_records) }
    ensures { result ≡ moved_word moved }
{
    (moved.answer as u64) + (moved.records as u64) * 0x10000 + (moved.faulty as u64) * 0x100000000
}

#[unsafe(no_mangle)]
pub extern "C" fn knot_place_store(old: &[u8], out: &mut [u8]) -> u64
    ensures { PlaceCalled old.now out.old result out.new }
{
    moved_word(probe_moves::place_store(old, out))
}

#[unsafe(no_mangle)]
pub extern "C" fn knot_unplace_store(store: &[u8], out: &mut [u8]) -> u64
    ensures { UnplaceCalled store.now out.old result out.new }
{
    moved_word(probe_moves::unplace_store(store, out))
}

#[unsafe(no_mangle)]
pub extern "C" fn knot_put_place(
    store: &[u8],
    n: usize,
    face: u8,
    column: u16,
    row: u16,
    out: &mut [u8],
) -> u64
    ensures { PutCalled store.now n (record { face = face; column = column; row = row }) out.old result out.new }
{
    moved_word(probe_put::put_place(store, n, face, column, row, out))
}

// The number and the three values of a pixel.
fn pixel_word(pixel: ProbePixel) -> u64
    ensures { result ≡ pixel_word pixel }
{
    (pixel.answer as u64)
        + (pixel.r as u64) * 0x10000
        + (pixel.g as u64) * 0x100000000
        + (pixel.b as u64) * 0x1000000000000
}

#[unsafe(no_mangle)]
pub extern "C" fn knot_probe_pixel(
    store: &[u8],
    edge: u32,
    face: u32,
    x: u32,
    y: u32,
    faulty: &mut usize,
) -> u64
    ensures { PixelCalled store.now edge face x y result faulty.new }
{
    let pixel = probe::probe_pixel(store, edge as usize, face as usize, x as usize, y as usize);
    *faulty = pixel.faulty;
    pixel_word(pixel)
}

// The number and the faulty record of a store that is no probe.
fn fault_word(fault: Fault) -> u64
    requires { fault.faulty ≤ most_records }
    ensures { result ≡ fault_word fault }
{
    (fault.answer as u64) + (fault.faulty as u64) * 0x10000
}

#[unsafe(no_mangle)]
pub extern "C" fn knot_probe_check(store: &[u8], edge: u32) -> u64
    ensures { result ≡ fault_word (probe_fault store.now edge) }
{
    fault_word(probe::probe_check(store, edge as usize))
}

#[unsafe(no_mangle)]
pub extern "C" fn knot_probe_face(store: &[u8], edge: u32, face: u32, out: &mut [u16]) -> u32
    ensures { FaceCalled store.now edge face out.old result out.new }
{
    probe_faces::probe_face(store, edge as usize, face as usize, out).answer as u32
}

#[unsafe(no_mangle)]
pub extern "C" fn knot_probe_open(store: &[u8], edge: u32, table: &mut [u16]) -> u64
    ensures { OpenCalled store.now edge table.old result table.new }
{
    fault_word(probe_open::probe_open(store, edge as usize, table))
}

#[unsafe(no_mangle)]
pub extern "C" fn knot_probe_pixel_in(
    store: &[u8],
    table: &[u16],
    edge: u32,
    face: u32,
    x: u32,
    y: u32,
) -> u64
    ensures { result ≡ pixel_word (table_answer store.now table.now edge face x y) }
{
    let pixel = probe_open::probe_pixel_in(
        store,
        table,
        edge as usize,
        face as usize,
        x as usize,
        y as usize,
    );
    pixel_word(pixel)
}

#[unsafe(no_mangle)]
pub extern "C" fn knot_probe_edge(store: &[u8]) -> usize
    ensures { result ≡ edge_of (length store.now) }
{
    probe_build::probe_edge(store) as usize
}

#[unsafe(no_mangle)]
pub extern "C" fn knot_probe_build(
    blocks: &[u8],
    format: u8,
    edge: u32,
    first_tile: u32,
    out: &mut [u8],
    records: &mut usize,
) -> u32
    ensures { BuiltTo blocks.now format edge first_tile out.old (record { answer = result; records = records.new }) out.new }
{
    let built = probe_build::probe_build(blocks, format, edge, first_tile, out);
    *records = built.records;
    built.answer as u32
}
