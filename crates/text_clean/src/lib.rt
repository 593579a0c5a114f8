// A clean-up as one run of bytes: a line for each record that is removed, its number and tile and those of the record that stays for it, a
// last line with the counts, and the cleaned store; or the line of a refused store alone.
#![tactic(auto)]

ghost use Rattle.std.specs.Prelude.{◌≡◌, ◌+◌, ◌*◌, ◌≤◌, length};
ghost use Rattle.store_records.specs.Store.{records_in, store_limit, most_records};
ghost use Rattle.store_spec.specs.Twins.{list_refusal};
ghost use Rattle.store_clean.specs.Clean.{answer_at};
ghost use Rattle.text.specs.Text.{Written};
ghost use Rattle.text_clean.specs.CleanText.{removed_line, removed_lines, counts_line, cleaning_text, cleaning_output};

use bcn_spec::Answer;
use store_clean::{Cleaned, clean_store, first_of};
use store_records::{Record, record_count, tile_at};
use store_spec::TwinList;
use text::{put, put_count, put_decimal, put_field, put_refusal};

// The most bytes of a line; the room for a line a record, the counts and a store.
const LINE: usize = 128;

pub const ROOM: usize = (TwinList::RECORDS + 1) * LINE + Record::STORE;

// The line of record n, which is removed, and of the record that stays for it.
fn put_removed(text: &mut [u8], at: usize, store: &[u8], n: usize, first: usize) -> usize
    requires { at + 128 ≤ length text.old }
    ensures upper_bound { result ≤ at + 128 }
    ensures written { Written text.old at (removed_line store.now n first) result text.new }
{
    let mut end = put_field(text, at, n as u64);
    end = put_field(text, end, tile_at(store, n) as u64);
    end = put_field(text, end, first as u64);
    end = put_decimal(text, end, tile_at(store, first) as u64);
    put(text, end, b"\n")
}

fn put_counts(text: &mut [u8], at: usize, stay: usize, removed: usize) -> usize
    requires { at + 128 ≤ length text.old }
    ensures upper_bound { result ≤ at + 128 }
    ensures written { Written text.old at (counts_line stay removed) result text.new }
{
    let mut end = put_count(text, at, b"stays ", stay as u64);
    end = put_count(text, end, b" removed ", removed as u64);
    put(text, end, b"\n")
}

// A line for each record that is removed.
fn put_lines(text: &mut [u8], store: &[u8]) -> usize
    requires { records_in store.now * 128 ≤ length text.old }
    ensures upper_bound { result ≤ records_in store.now * 128 }
    ensures written { Written text.old 0 (removed_lines store.now (records_in store.now)) result text.new }
{
    let count = record_count(store);
    let mut end: usize = 0;
    for n in 0..count {
        let first = first_of(store, n);
        if first >= n {
            continue;
        }
        end = put_removed(text, end, store, n, first);
    }
    end
}

// What is told of a store that was cleaned so, at the start of `text`; answers how many bytes it has.
fn put_text(text: &mut [u8], store: &[u8], cleaned: Cleaned) -> usize
    requires most_records_in_bounds { (most_records + 1) * 128 ≤ length text.old }
    requires cleaned_value { cleaned ≡ answer_at (list_refusal (length store.now) most_records) store.now }
    ensures upper_bound { result ≤ (most_records + 1) * 128 }
    ensures written { Written text.old 0 (cleaning_text store.now) result text.new }
{
    if cleaned.answer != Answer::DONE {
        return put_refusal(text, 0, cleaned.answer);
    }
    let end = put_lines(text, store);
    put_counts(text, end, cleaned.kept, cleaned.removed)
}

// The clean-up of a store at the start of `out`; answers how many bytes it has. A refused store has no record that stays.
pub fn put_cleaning(out: &mut [u8], store: &[u8]) -> usize
    requires { (most_records + 1) * 128 + store_limit ≤ length out.old }
    ensures upper_bound { result ≤ length out.new }
    ensures written { Written out.old 0 (cleaning_output store.now) result out.new }
{
    let mut left = [0u8; Record::STORE];
    let cleaned = clean_store(store, &mut left);
    let end = put_text(out, store, cleaned);
    let size = cleaned.kept * Record::SIZE;
    put(out, end, &left[..size])
}
