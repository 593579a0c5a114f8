// The twin list: which records of a store hold the same picture, in the same format, as an earlier one. Each record is decoded once. The strict
// list refuses a store with a damaged record, one that is not refused and has a reserved mode.
#![tactic(auto)]

ghost use Rattle.std.specs.Prelude.{◌≡◌, ◌++◌, ◌*◌, ◌≤◌, length, drop};
ghost use Rattle.bc6h_spec.specs.Picture.{value_count};
ghost use Rattle.store_records.specs.Store.{records_in, format_of, Unrefused};
ghost use Rattle.store_spec.specs.Shown.{picture_at};
ghost use Rattle.store_spec.specs.Scratch.{scratch_entry, pictures_of, scratch_of};
ghost use Rattle.store_spec.specs.Twins.{showing, first_twin, Listed, ListedIn};
ghost use Rattle.store_twins.specs.Strict.{damaged, first_damaged, StrictlyListed};

use bc6::block_pixels;
use bc6h_spec::Picture;
use bcn_spec::Answer;
use store_marks::{count_of, holds_picture, list_refusal, mark_records, scratch_refusal};
use store_records::{Record, record_at, record_block, record_count};
use store_scratch::{keep_prints, mode_at};
use store_spec::{Mark, TwinList};

// The picture of record n, which is not refused, into the first values of `out`.
fn decode_record(store: &[u8], n: usize, format: u8, out: &mut [u16])
    requires unrefused { Unrefused store.now n }
    requires format_value { format ≡ format_of store.now n }
    requires value_count_in_bounds { value_count ≤ length out.old }
    ensures { out.new ≡ picture_at store.now n ++ drop value_count out.old }
{
    let _ = block_pixels(record_block(store, n), format, out);
}

// The pictures of all records that are not refused, each at its record's number.
fn keep_pictures(store: &[u8], pictures: &mut [u16])
    requires { value_count * records_in store.now ≤ length pictures.old }
    ensures { pictures.new ≡ pictures_of store.now pictures.old }
{
    let count = record_count(store);
    for n in 0..count {
        let Ok(found) = record_at(store, n) else {
            continue;
        };
        let start = Picture::VALUES * n;
        decode_record(store, n, found.format, &mut pictures[start..]);
    }
}

// Decodes each record once, into scratch space.
fn keep_records(store: &[u8], scratch: &mut [u16])
    requires { records_in store.now * scratch_entry ≤ length scratch.old }
    ensures { scratch.new ≡ scratch_of store.now scratch.old }
{
    let count = record_count(store);
    keep_pictures(store, &mut scratch[count..]);
    keep_prints(store, scratch);
}

// Marks the records of a store, one mark a record, and counts the marks of each kind; what it keeps of the records stands in `scratch`.
pub fn twin_list_in(store: &[u8], marks: &mut [u8], scratch: &mut [u16]) -> TwinList
    ensures { ListedIn store.now marks.old scratch.old result marks.new scratch.new }
{
    let refusal = scratch_refusal(store, marks.len(), scratch.len());
    if refusal != Answer::DONE {
        return TwinList::refused(refusal);
    }
    keep_records(store, scratch);
    mark_records(store, scratch, marks);
    let made = &marks[..record_count(store)];
    TwinList {
        answer: Answer::DONE,
        kept: count_of(made, Mark::KEPT),
        twins: count_of(made, Mark::TWIN),
        bad: count_of(made, Mark::BAD),
    }
}

// The same, with scratch space of its own.
pub fn twin_list(store: &[u8], marks: &mut [u8]) -> TwinList
    ensures { Listed store.now marks.old result marks.new }
{
    let mut scratch = [0u16; TwinList::SCRATCH];
    twin_list_in(store, marks, &mut scratch)
}

// Record n holds the picture, in the format.
fn shows(store: &[u8], n: usize, format: u8, picture: &[u16]) -> bool
    requires { length picture.now ≡ value_count }
    ensures { result ≡ showing store.now n format picture.now }
{
    if !holds_picture(store, n, format) {
        return false;
    }
    let mut shown = [0u16; Picture::VALUES];
    decode_record(store, n, format, &mut shown);
    shown.as_slice() == picture
}

// The first earlier record that record n is a twin of; n where it is no twin.
pub fn first_twin(store: &[u8], n: usize) -> usize
    ensures { result ≡ first_twin store.now n }
{
    let Ok(found) = record_at(store, n) else {
        return n;
    };
    if mode_at(store, n) == 0 {
        return n;
    }
    let mut picture = [0u16; Picture::VALUES];
    decode_record(store, n, found.format, &mut picture);
    (0..n)
        .find(|earlier| shows(store, *earlier, found.format, &picture))
        .unwrap_or(n)
}

// ---- the strict list

// Record n is not refused and has a reserved mode.
fn is_damaged(store: &[u8], n: usize) -> bool
    ensures { result ≡ damaged store.now n }
{
    let Ok(_) = record_at(store, n) else {
        return false;
    };
    mode_at(store, n) == 0
}

// The first damaged record; the number of records where there is none. In a store that is too long or uneven every record is refused,
// so none is damaged.
pub fn first_damaged(store: &[u8]) -> usize
    ensures { result ≡ first_damaged store.now }
{
    let count = record_count(store);
    if store.len() > Record::STORE {
        return count;
    }
    match (0..count).find(|n| is_damaged(store, *n)) {
        Some(n) => n,
        None => count,
    }
}

// The twin list of a store, which is refused whole where a record is damaged.
pub fn strict_twin_list(store: &[u8], marks: &mut [u8]) -> TwinList
    ensures { StrictlyListed store.now marks.old result marks.new }
{
    let ordinary = list_refusal(store, marks.len());
    if ordinary != Answer::DONE {
        return TwinList::refused(ordinary);
    }
    if first_damaged(store) < record_count(store) {
        return TwinList::refused(Answer::RESERVED_BLOCK);
    }
    twin_list(store, marks)
}
