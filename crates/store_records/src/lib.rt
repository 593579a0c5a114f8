// The store of 24-byte records: record by number, block of a record, tile of a record.
#![tactic(auto)]

ghost use Rattle.std.specs.Prelude.{◌≡◌, [], ◌∷◌};
ghost use Rattle.store_records.specs.Store.{record_size, head_size, store_limit, records_in, tile_at, part_at, record_refusal, RecordRead};

use bcn_spec::{Block, Refusal};
use raw_bytes::u32_at;

#[derive(Clone, Copy)]
pub struct Record {
    pub tile: u32,
    pub format: u8,
}

impl Record {
    pub const SIZE: usize = 24;

    // The bytes before a record's block.
    pub const HEAD: usize = 8;

    // The most bytes of a store.
    pub const STORE: usize = 48000;

    // The constants are the numbers of specs/.
    pub fn sizes() -> [usize; 3]
        ensures { result ≡ record_size ∷ head_size ∷ store_limit ∷ [] }
    {
        [Record::SIZE, Record::HEAD, Record::STORE]
    }
}

// How many records a store has.
pub fn record_count(store: &[u8]) -> usize
    ensures { result ≡ records_in store.now }
{
    store.len() / Record::SIZE
}

// The tile number of record n, whatever else the record holds; 0 where there is no such record.
pub fn tile_at(store: &[u8], n: usize) -> u32
    ensures { result ≡ tile_at store.now n }
{
    if n >= record_count(store) {
        return 0;
    }
    u32_at(store, n * Record::SIZE)
}

// Record n of a store.
pub fn record_at(store: &[u8], n: usize) -> Result<Record, Refusal>
    ensures { RecordRead store.now n result }
{
    if store.len() > Record::STORE {
        return Err(Refusal::LongStore);
    }
    if store.len() % Record::SIZE != 0 {
        return Err(Refusal::UnevenStore);
    }
    if n >= record_count(store) {
        return Err(Refusal::NoRecord);
    }
    let at = n * Record::SIZE;
    let format = store[at + 4];
    if format > 1 {
        return Err(Refusal::BadFormat);
    }
    if store[at + 5..at + 8] != [0; 3] {
        return Err(Refusal::SpareByte);
    }
    Ok(Record {
        tile: tile_at(store, n),
        format,
    })
}

// The sixteen block bytes of record n, as a part of the store; empty where `record_at` refuses n.
pub fn record_block(store: &[u8], n: usize) -> &[u8]
    ensures { result.now ≡ part_at (record_refusal store.now n) store.now n }
{
    let Ok(_) = record_at(store, n) else {
        return &store[..0];
    };
    let start = n * Record::SIZE + Record::HEAD;
    &store[start..start + Block::SIZE]
}
