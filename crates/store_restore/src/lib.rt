// Undoes a clean-up: the store as it was, from the cleaned store and the receipt.
#![tactic(auto)]

ghost use Rattle.std.specs.Prelude.{◌≡◌, ◌+◌, ◌<◌, ◌≤◌, eqb, ltb, length, drop};
ghost use Rattle.std.proofs.Math.Seq.{paste};
ghost use Rattle.laws.specs.Pick.{both};
ghost use Rattle.store_receipt.specs.Receipt.{entries_in, removed_number};
ghost use Rattle.store_restore.specs.Restore.{least_at, entry_fits, receipt_fits, restore_refusal, put_into, PutBack, RestoredInto};

use bcn_spec::Answer;
use store_clean::copy_record;
use store_receipt::{Entry, entry_at};
use store_records::{Record, record_count};
use store_spec::TwinList;

// Done, with how many records were restored; or a refusal's number.
#[derive(Clone, Copy)]
pub struct Restored {
    pub answer: u8,
    pub records: usize,
}

impl Restored {
    fn refused(answer: u8) -> Restored
        ensures { result ≡ record { answer = answer; records = 0 } }
    {
        Restored { answer, records: 0 }
    }
}

// ---- which receipts fit

// Whether entry e fits a store of `total` records; its number must be at least `least`, one above the entry before.
fn entry_fits(receipt: &[u8], total: usize, e: usize, least: usize) -> bool
    requires { (e < entries_in receipt.now) × (least ≡ least_at receipt.now e) }
    ensures { result ≡ entry_fits receipt.now total e }
{
    let entry = entry_at(receipt, e);
    if entry.number < least {
        return false;
    }
    if entry.number >= total {
        return false;
    }
    entry.stays < entry.number
}

fn receipt_fits(receipt: &[u8], total: usize) -> bool
    ensures { result ≡ receipt_fits receipt.now total }
{
    if receipt.len() % Entry::SIZE != 0 {
        return false;
    }
    let entries = receipt.len() / Entry::SIZE;
    let mut least: usize = 0;
    for e in 0..entries {
        if !entry_fits(receipt, total, e, least) {
            return false;
        }
        least = entry_at(receipt, e).number + 1;
    }
    true
}

// The number of the refusal, or done, given `room` lent bytes.
fn restore_refusal(cleaned: &[u8], receipt: &[u8], room: usize) -> u8
    ensures { result ≡ restore_refusal cleaned.now receipt.now room }
{
    if cleaned.len() > Record::STORE {
        return Answer::LONG_STORE;
    }
    let total = record_count(cleaned) + receipt.len() / Entry::SIZE;
    if total > TwinList::RECORDS {
        return Answer::LONG_STORE;
    }
    if cleaned.len() % Record::SIZE != 0 {
        return Answer::UNEVEN_STORE;
    }
    if !receipt_fits(receipt, total) {
        return Answer::BAD_RECEIPT;
    }
    if room < total * Record::SIZE {
        return Answer::SHORT_OUTPUT;
    }
    Answer::DONE
}

// ---- the bytes

// The tile of an entry, copied to a record. By a loop, as below: for so few bytes the copies of slices cost more.
fn copy_tile(receipt: &[u8], from: usize, out: &mut [u8], to: usize)
    requires { (from + 4 ≤ length receipt.now) × (to + 4 ≤ length out.old) }
    ensures { out.new ≡ paste out.old to (drop from receipt.now) 4 }
{
    for k in 0..Entry::TILE {
        out[to + k] = receipt[from + k];
    }
}

// What follows the tile in a record, copied to a later one.
fn copy_rest(out: &mut [u8], from: usize, to: usize)
    requires { (from + 20 ≤ to) × (to + 20 ≤ length out.old) }
    ensures { out.new ≡ paste out.old to (drop from out.old) 20 }
{
    for k in 0..Entry::REST {
        out[to + k] = out[from + k];
    }
}

// Writes record n by entry e: the entry's tile, and what follows the tile in the record that stays.
fn put_back(receipt: &[u8], e: usize, out: &mut [u8], n: usize)
    requires { PutBack receipt.now e out.old n }
    ensures { out.new ≡ put_into receipt.now e out.old n }
{
    let stays = entry_at(receipt, e).stays;
    let tile = e * Entry::SIZE + Entry::HEAD;
    let to = n * Record::SIZE;
    copy_tile(receipt, tile, out, to);
    let rest = stays * Record::SIZE + Entry::TILE;
    copy_rest(out, rest, to + Entry::TILE);
}

// Whether there is an entry e, and its number is n.
fn is_next(receipt: &[u8], e: usize, n: usize) -> bool
    ensures { result ≡ both (ltb e (entries_in receipt.now)) (eqb (removed_number receipt.now e) n) }
{
    if e >= receipt.len() / Entry::SIZE {
        return false;
    }
    entry_at(receipt, e).number == n
}

// Writes the store as it was: the records of the cleaned store in order, and among them those that the receipt's entries put back.
pub fn restore_store(cleaned: &[u8], receipt: &[u8], out: &mut [u8]) -> Restored
    ensures { RestoredInto cleaned.now receipt.now out.old result out.new }
{
    let refusal = restore_refusal(cleaned, receipt, out.len());
    if refusal != Answer::DONE {
        return Restored::refused(refusal);
    }
    let total = record_count(cleaned) + receipt.len() / Entry::SIZE;
    let mut used: usize = 0;
    for n in 0..total {
        if is_next(receipt, used, n) {
            put_back(receipt, used, out, n);
            used += 1;
            continue;
        }
        copy_record(cleaned, n - used, out, n);
    }
    Restored {
        answer: Answer::DONE,
        records: total,
    }
}
