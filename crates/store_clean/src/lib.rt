// A clean-up of a store: the records that stay, in order and byte for byte. A record goes exactly when it is an earlier one that stays
// once more: neither refused nor reserved, of the same format, with the same sixteen block bytes. Nothing is decoded.
#![tactic(auto)]

ghost use Rattle.std.specs.Prelude.{◌≡◌, ◌+◌, ◌*◌, ◌≤◌, ◌<◌, length};
ghost use Rattle.std.proofs.Math.Seq.{paste};
ghost use Rattle.laws.specs.Every.{same};
ghost use Rattle.bcn_spec.specs.Bits.{block_size};
ghost use Rattle.store_records.specs.Store.{record_size, records_in, most_records};
ghost use Rattle.store_clean.specs.Clean.{repeats, first_of, record_of, refusal, CleanedInto};
ghost use Rattle.store_clean.specs.Links.{bucket_count, block_mixed, bucket_of, Linked, Met};

use bcn_spec::{Answer, Block};
use store_marks::list_refusal;
use store_records::{Record, record_at, record_block, record_count};
use store_scratch::{mixed_on, mode_at};
use store_spec::TwinList;

// Done, with how many records stay and how many are removed; or a refusal's number.
#[derive(Clone, Copy)]
pub struct Cleaned {
    pub answer: u8,
    pub kept: usize,
    pub removed: usize,
}

impl Cleaned {
    // How many buckets the records are put in.
    const BUCKETS: usize = 2048;

    pub fn refused(answer: u8) -> Cleaned
        ensures { result ≡ refusal answer }
    {
        Cleaned {
            answer,
            kept: 0,
            removed: 0,
        }
    }
}

// A number that records of another format or with other bytes seldom share.
fn mixed(format: u8, block: &[u8]) -> u64
    requires { length block.now ≡ block_size }
    ensures { result ≡ block_mixed format block.now block_size }
{
    let mut mix = u64::from(format) + 1;
    for byte in block {
        mix = mixed_on(mix) + u64::from(*byte);
    }
    mix
}

fn bucket_of(format: u8, block: &[u8]) -> usize
    requires { length block.now ≡ block_size }
    ensures { (result ≡ bucket_of format block.now) × (result < bucket_count) }
{
    (mixed(format, block) / 0x1000000) as usize % Cleaned::BUCKETS
}

// Of each record that is not refused the last one before it of the same bucket, plus one; 0 where there is none.
pub fn link_records(store: &[u8], links: &mut [u16])
    requires store_bound { records_in store.now ≤ most_records }
    requires store_in_bounds { records_in store.now ≤ length links.old }
    ensures { Linked store.now (records_in store.now) links.new }
{
    let count = record_count(store);
    let mut heads = [0u16; Cleaned::BUCKETS];
    for n in 0..count {
        let Ok(found) = record_at(store, n) else {
            continue;
        };
        let bucket = bucket_of(found.format, record_block(store, n));
        links[n] = heads[bucket];
        heads[bucket] = (n + 1) as u16;
    }
}

// Two blocks are the same. By a loop that ends at the first byte that differs: in a search through a store that is mostly an early one, and `==`
// of slices costs more there.
pub fn same_block(a: &[u8], b: &[u8]) -> bool
    requires { (length a.now ≡ block_size) × (length b.now ≡ block_size) }
    ensures { result ≡ same a.now b.now }
{
    for k in 0..Block::SIZE {
        if a[k] != b[k] {
            return false;
        }
    }
    true
}

// Record n is record `earlier` once more.
fn is_repeat(store: &[u8], n: usize, earlier: usize) -> bool
    ensures { result ≡ repeats store.now n earlier }
{
    let Ok(again) = record_at(store, n) else {
        return false;
    };
    let Ok(kept) = record_at(store, earlier) else {
        return false;
    };
    if again.format != kept.format {
        return false;
    }
    let mode = mode_at(store, n);
    if mode == 0 {
        return false;
    }
    same_block(record_block(store, n), record_block(store, earlier))
}

// The record that stays for record n where that is removed; n where it stays.
pub fn first_of(store: &[u8], n: usize) -> usize
    ensures { result ≡ first_of store.now n }
{
    let Ok(_) = record_at(store, n) else {
        return n;
    };
    (0..n)
        .find(|earlier| is_repeat(store, n, *earlier))
        .unwrap_or(n)
}

// An earlier record that record n repeats; n where there is none. A walk along the links, from the last record of its bucket to the first.
pub fn repeated_along(store: &[u8], links: &[u16], n: usize) -> usize
    requires n_bound { n < records_in store.now }
    requires store_in_bounds { records_in store.now ≤ length links.now }
    requires linked { Linked store.now (records_in store.now) links.now }
    ensures { Met store.now n result }
{
    let Ok(_) = record_at(store, n) else {
        return n;
    };
    if mode_at(store, n) == 0 {
        return n;
    }
    let mut at = usize::from(links[n]);
    while at > 0 {
        let earlier = at - 1;
        if is_repeat(store, n, earlier) {
            return earlier;
        }
        at = usize::from(links[earlier]);
    }
    n
}

// Record n of the store as record `place` of `out`.
pub fn copy_record(store: &[u8], n: usize, out: &mut [u8], place: usize)
    requires n_bound { n < records_in store.now }
    requires record_size_in_bounds { place * record_size + record_size ≤ length out.old }
    ensures { out.new ≡ paste out.old (place * record_size) (record_of store.now n) record_size }
{
    let from = n * Record::SIZE;
    let to = place * Record::SIZE;
    out[to..to + Record::SIZE].copy_from_slice(&store[from..from + Record::SIZE]);
}

// Writes the records of a store that stay, in order and byte for byte, and counts those and the ones that are removed.
pub fn clean_store(store: &[u8], out: &mut [u8]) -> Cleaned
    ensures { CleanedInto store.now out.old result out.new }
{
    let refusal = list_refusal(store, out.len() / Record::SIZE);
    if refusal != Answer::DONE {
        return Cleaned::refused(refusal);
    }
    let mut links = [0u16; TwinList::RECORDS];
    link_records(store, &mut links);
    let count = record_count(store);
    let mut kept: usize = 0;
    for n in 0..count {
        if repeated_along(store, &links, n) < n {
            continue;
        }
        copy_record(store, n, out, kept);
        kept += 1;
    }
    Cleaned {
        answer: Answer::DONE,
        kept,
        removed: count - kept,
    }
}
