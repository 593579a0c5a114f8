// A clean-up that loses nothing: beside the cleaned store it writes a receipt. An entry of it has the number of a removed record, the number
// of the record that stays for it, and the removed record's tile.
#![tactic(auto)]

ghost use Rattle.std.specs.Prelude.{◌≡◌, ◌+◌, ◌*◌, ◌≤◌, ◌<◌, length};
ghost use Rattle.std.proofs.Math.Seq.{paste};
ghost use Rattle.store_clean.specs.Clean.{first_of};
ghost use Rattle.store_receipt.specs.Receipt.{entries_in, entry_size, entry_of, entry_at, receipt_refusal, ReceiptInto, Walk, Tells};

use bcn_spec::Answer;
use raw_bytes::u16_at;
use store_clean::{Cleaned, copy_record, link_records, repeated_along};
use store_marks::list_refusal;
use store_records::{Record, record_count};
use store_spec::TwinList;

// An entry without its tile: the number of a removed record, and of the record that stays for it.
#[derive(Clone, Copy)]
pub struct Entry {
    pub number: usize,
    pub stays: usize,
}

impl Entry {
    pub const SIZE: usize = 8;

    // The bytes before an entry's tile, those of the tile, and those that follow the tile in a record.
    pub const HEAD: usize = 4;

    pub const TILE: usize = 4;

    pub const REST: usize = Record::SIZE - Entry::TILE;
}

// Entry e of a receipt.
pub fn entry_at(receipt: &[u8], e: usize) -> Entry
    requires { e < entries_in receipt.now }
    ensures { result ≡ entry_at receipt.now e }
{
    let at = e * Entry::SIZE;
    Entry {
        number: usize::from(u16_at(receipt, at)),
        stays: usize::from(u16_at(receipt, at + 2)),
    }
}

// The number of the refusal, or done; `room` and `paper` are the bytes lent for the cleaned store and for the receipt.
fn receipt_refusal(store: &[u8], room: usize, paper: usize) -> u8
    ensures { result ≡ receipt_refusal (length store.now) room paper }
{
    let refusal = list_refusal(store, room / Record::SIZE);
    if refusal != Answer::DONE {
        return refusal;
    }
    list_refusal(store, paper / Entry::SIZE)
}

// The record that stays for record n; n where it stays itself. The record that stays for any earlier record that n repeats stays for n too, and
// `firsts` has it already.
fn first_along(store: &[u8], links: &[u16], firsts: &[u16], n: usize) -> usize
    requires { Walk store.now links.now firsts.now n }
    ensures { (result ≡ first_of store.now n) × (result ≤ n) }
{
    let earlier = repeated_along(store, links, n);
    if earlier >= n {
        return n;
    }
    usize::from(firsts[earlier])
}

fn entry_of(store: &[u8], n: usize, first: usize) -> [u8; 8]
    requires { (n < 65536) × (first ≤ n) × (n * 24 + 24 ≤ length store.now) × (first ≡ first_of store.now n) }
    ensures { result ≡ entry_of store.now n }
{
    let number = (n as u16).to_le_bytes();
    let stays = (first as u16).to_le_bytes();
    let at = n * Record::SIZE;
    [
        number[0],
        number[1],
        stays[0],
        stays[1],
        store[at],
        store[at + 1],
        store[at + 2],
        store[at + 3],
    ]
}

// Writes the entry of record n as entry `place` of the receipt.
fn write_entry(store: &[u8], n: usize, first: usize, receipt: &mut [u8], place: usize)
    requires { Tells store.now n first receipt.old place }
    ensures { receipt.new ≡ paste receipt.old (place * entry_size) (entry_of store.now n) entry_size }
{
    let entry = entry_of(store, n, first);
    let to = place * Entry::SIZE;
    receipt[to..to + Entry::SIZE].copy_from_slice(&entry);
}

// Writes the records that stay to `out`, as `clean_store` does, and an entry for each removed record to `receipt`, in order.
pub fn clean_with_receipt(store: &[u8], out: &mut [u8], receipt: &mut [u8]) -> Cleaned
    ensures { ReceiptInto store.now out.old receipt.old result out.new receipt.new }
{
    let refusal = receipt_refusal(store, out.len(), receipt.len());
    if refusal != Answer::DONE {
        return Cleaned::refused(refusal);
    }
    let mut links = [0u16; TwinList::RECORDS];
    link_records(store, &mut links);
    let mut firsts = [0u16; TwinList::RECORDS];
    let count = record_count(store);
    let mut kept: usize = 0;
    for n in 0..count {
        let first = first_along(store, &links, &firsts, n);
        firsts[n] = first as u16;
        if first < n {
            write_entry(store, n, first, receipt, n - kept);
            continue;
        }
        copy_record(store, n, out, kept);
        kept += 1;
    }
    Cleaned {
        answer: Answer::DONE,
        kept,
        removed: count - kept,
    }
}
