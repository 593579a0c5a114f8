// The mark of each record of a store, by what scratch space keeps of the records.
#![tactic(auto)]

ghost use Rattle.std.specs.Prelude.{◌≡◌, ◌++◌, ◌*◌, ◌≤◌, ◌<◌, length, drop};
ghost use Rattle.laws.specs.Made.{count_of};
ghost use Rattle.store_records.specs.Store.{records_in, format_of, Unrefused};
ghost use Rattle.store_spec.specs.Shown.{Reserved};
ghost use Rattle.store_spec.specs.Scratch.{scratch_entry, Pictured, Kept};
ghost use Rattle.store_spec.specs.Twins.{holding, alike, marks_of, list_refusal, scratch_refusal};

use bcn_spec::Answer;
use store_records::{Record, record_at, record_count};
use store_scratch::{mode_at, picture_in};
use store_spec::{Mark, TwinList};

// Record n is not refused, of the format and not reserved.
pub fn holds_picture(store: &[u8], n: usize, format: u8) -> bool
    ensures { result ≡ holding store.now n format }
{
    let Ok(found) = record_at(store, n) else {
        return false;
    };
    found.format == format && mode_at(store, n) != 0
}

// Record `earlier` holds the picture of record n, which holds one of the format.
fn kept_alike(store: &[u8], scratch: &[u16], n: usize, format: u8, earlier: usize) -> bool
    requires unrefused { Unrefused store.now n }
    requires format_value { format ≡ format_of store.now n }
    requires fact { Reserved store.now n → ⊥ }
    requires n_bound { (n < records_in store.now) × (earlier < n) }
    requires scratch_entry_in_bounds { records_in store.now * scratch_entry ≤ length scratch.now }
    requires pictured { Pictured store.now scratch.now }
    ensures { result ≡ alike store.now n earlier }
{
    if !holds_picture(store, earlier, format) {
        return false;
    }
    let count = record_count(store);
    picture_in(scratch, count, earlier) == picture_in(scratch, count, n)
}

// One mark a record, by what scratch space keeps of each.
pub fn mark_records(store: &[u8], scratch: &[u16], marks: &mut [u8])
    requires scratch_entry_in_bounds { records_in store.now * scratch_entry ≤ length scratch.now }
    requires store_in_bounds { records_in store.now ≤ length marks.old }
    requires kept { Kept store.now scratch.now }
    ensures { marks.new ≡ marks_of store.now ++ drop (records_in store.now) marks.old }
{
    let count = record_count(store);
    for n in 0..count {
        let Ok(found) = record_at(store, n) else {
            marks[n] = Mark::BAD;
            continue;
        };
        if mode_at(store, n) == 0 {
            marks[n] = Mark::KEPT;
            continue;
        }
        let print = scratch[n];
        let mut mark = Mark::KEPT;
        'search: for earlier in 0..n {
            if scratch[earlier] != print {
                continue 'search;
            }
            if kept_alike(store, scratch, n, found.format, earlier) {
                mark = Mark::TWIN;
                break 'search;
            }
        }
        marks[n] = mark;
    }
}

// How many of the marks are `mark`.
pub fn count_of(marks: &[u8], mark: u8) -> usize
    ensures { result ≡ count_of mark marks.now }
{
    marks.iter().filter(|m| **m == mark).count()
}

// Why a twin list over the store, with room for so many marks, is refused.
pub fn list_refusal(store: &[u8], room: usize) -> u8
    ensures { result ≡ list_refusal (length store.now) room }
{
    if store.len() > Record::STORE {
        return Answer::LONG_STORE;
    }
    if store.len() % Record::SIZE != 0 {
        return Answer::UNEVEN_STORE;
    }
    if room < record_count(store) {
        return Answer::SHORT_OUTPUT;
    }
    Answer::DONE
}

// The same where scratch space has so many values.
pub fn scratch_refusal(store: &[u8], room: usize, space: usize) -> u8
    ensures { result ≡ scratch_refusal (length store.now) room space }
{
    let refusal = list_refusal(store, room);
    if refusal != Answer::DONE {
        return refusal;
    }
    list_refusal(store, space / TwinList::ENTRY)
}
