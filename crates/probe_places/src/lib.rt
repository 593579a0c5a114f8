// The store of 32-byte records, each with a place on a face: record by number, block of a record.
#![tactic(auto)]

ghost use Rattle.std.specs.Prelude.{◌≡◌, [], ◌∷◌, ◌<◌};
ghost use Rattle.probe_places.specs.Faults.{no_fault, fault_alone};
ghost use Rattle.probe_places.specs.Places.{place_size, place_head, place_limit, face_count, no_face, places_in, place_in, pair_at, tile_in, rest_zero, place_refusal, place_record_refusal};
ghost use Rattle.probe_places.specs.Readings.{placed_refusal, placed_number, placed_part, PlacedRead};

use bcn_spec::{Answer, Block};
use raw_bytes::{u16_at, u32_at};

// Where a record stands: face 0 to 5, or 255 where it is not placed.
#[derive(Clone, Copy)]
pub struct Place {
    pub face: u8,
    pub column: u16,
    pub row: u16,
}

impl Place {
    pub const SIZE: usize = 32;

    // The bytes before a record's block.
    pub const HEAD: usize = 16;

    // The most bytes of a store.
    pub const STORE: usize = 64000;

    pub const FACES: u8 = 6;

    // The face of a record that is not placed.
    pub const NONE: u8 = 255;

    // The constants are the numbers of specs/.
    pub fn sizes() -> [usize; 3]
        ensures { result ≡ place_size ∷ place_head ∷ place_limit ∷ [] }
    {
        [Place::SIZE, Place::HEAD, Place::STORE]
    }

    pub fn faces() -> [u8; 2]
        ensures { result ≡ face_count ∷ no_face ∷ [] }
    {
        [Place::FACES, Place::NONE]
    }

    // Why the place is refused: a face that is none, or a position where there is no face.
    pub fn refusal(self) -> u8
        ensures { result ≡ place_refusal self }
    {
        if self.face < Place::FACES {
            return Answer::DONE;
        }
        if self.face != Place::NONE {
            return Answer::BAD_PLACE;
        }
        if self.column != 0 {
            return Answer::BAD_PLACE;
        }
        if self.row != 0 {
            return Answer::BAD_PLACE;
        }
        Answer::DONE
    }
}

#[derive(Clone, Copy)]
pub struct PlacedRecord {
    pub tile: u32,
    pub format: u8,
    pub place: Place,
}

// A record with its place, or the number of a refusal.
#[derive(Clone, Copy)]
pub enum PlacedReading {
    Record(PlacedRecord),
    Refused(u8),
}

impl PlacedReading {
    // The number that a reading stands for: 0 for a record.
    pub fn number(self) -> u8
        ensures { result ≡ placed_number self }
    {
        match self {
            PlacedReading::Record(_) => Answer::DONE,
            PlacedReading::Refused(number) => number,
        }
    }
}

// Why a store is refused, and the number of the record that is why; 0 where none is.
#[derive(Clone, Copy)]
pub struct Fault {
    pub answer: u8,
    pub faulty: usize,
}

impl Fault {
    pub fn none() -> Fault
        ensures { result ≡ no_fault }
    {
        Fault {
            answer: Answer::DONE,
            faulty: 0,
        }
    }

    // A refusal that is no record's.
    pub fn alone(answer: u8) -> Fault
        ensures { result ≡ fault_alone answer }
    {
        Fault { answer, faulty: 0 }
    }
}

// Two bytes of record n, low byte first.
fn pair_at(store: &[u8], n: usize, k: usize) -> u16
    requires { (n < places_in store.now) × (k < 16) }
    ensures { result ≡ pair_at store.now n k }
{
    u16_at(store, n * Place::SIZE + k)
}

// The tile number of record n, whatever else the record holds.
pub fn tile_at(store: &[u8], n: usize) -> u32
    requires { n < places_in store.now }
    ensures { result ≡ tile_in store.now n }
{
    u32_at(store, n * Place::SIZE)
}

// The place of record n.
pub fn place_at(store: &[u8], n: usize) -> Place
    requires { n < places_in store.now }
    ensures { result ≡ place_in store.now n }
{
    Place {
        face: store[n * Place::SIZE + 5],
        column: pair_at(store, n, 6),
        row: pair_at(store, n, 8),
    }
}

// The six bytes before the block of record n are zero.
fn rest_zero(store: &[u8], n: usize) -> bool
    requires { n < places_in store.now }
    ensures { result ≡ rest_zero store.now n }
{
    let at = n * Place::SIZE;
    store[at + 10..at + Place::HEAD].iter().all(|b| *b == 0)
}

// Why record n is refused.
pub fn place_record_refusal(store: &[u8], n: usize) -> u8
    requires { n < places_in store.now }
    ensures { result ≡ place_record_refusal store.now n }
{
    if store[n * Place::SIZE + 4] > 1 {
        return Answer::BAD_FORMAT;
    }
    if !rest_zero(store, n) {
        return Answer::SPARE_BYTE;
    }
    place_at(store, n).refusal()
}

// Why the record call refuses n.
fn placed_refusal(store: &[u8], n: usize) -> u8
    ensures { result ≡ placed_refusal store.now n }
{
    if store.len() > Place::STORE {
        return Answer::LONG_STORE;
    }
    if store.len() % Place::SIZE != 0 {
        return Answer::UNEVEN_STORE;
    }
    if n >= store.len() / Place::SIZE {
        return Answer::NO_RECORD;
    }
    place_record_refusal(store, n)
}

// Record n of a store.
pub fn placed_record_at(store: &[u8], n: usize) -> PlacedReading
    ensures { PlacedRead store.now n result }
{
    let refusal = placed_refusal(store, n);
    if refusal != Answer::DONE {
        return PlacedReading::Refused(refusal);
    }
    PlacedReading::Record(PlacedRecord {
        tile: tile_at(store, n),
        format: store[n * Place::SIZE + 4],
        place: place_at(store, n),
    })
}

// The sixteen block bytes of record n, as a part of the store; empty where `placed_record_at` refuses n.
pub fn placed_record_block(store: &[u8], n: usize) -> &[u8]
    ensures { result.now ≡ placed_part (placed_refusal store.now n) store.now n }
{
    if placed_refusal(store, n) != Answer::DONE {
        return &store[..0];
    }
    let start = n * Place::SIZE + Place::HEAD;
    let end = start + Block::SIZE;
    &store[start..end]
}
