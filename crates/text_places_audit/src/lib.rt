// The audit of a store of records with a place, as text: a line that names the columns, a line for each copy with its place and that of the
// first record of the same format and bytes, and a last line with the counts; or the line of a refused store. Nothing is decoded.
#![tactic(auto)]

ghost use Rattle.std.specs.Prelude.{◌≡◌, ◌++◌, ◌+◌, ◌*◌, ◌≤◌, ◌<◌, length};
ghost use Rattle.store_records.specs.Store.{most_records};
ghost use Rattle.store_faulty.specs.Faulty.{placed_form};
ghost use Rattle.probe_places.specs.Places.{places_in};
ghost use Rattle.text.specs.Text.{Written};
ghost use Rattle.text_places_audit.specs.Copies.{repeats_in, first_in};
ghost use Rattle.text_places_audit.specs.Audit.{where_of, copy_line, copy_lines, tally_line, tally_of, audit_of};

use bcn_spec::Answer;
use probe_places::{Place, PlacedReading, place_at, placed_record_at, placed_record_block};
use store_clean::same_block;
use store_faulty::{FaultCounts, Placed, faults_in, mode_in, refusal_in};
use text::{put, put_count, put_refusal};
use text_audit::put_faults;
use text_places::{put_number, put_place};

// The most bytes of a line, and the room for a line a record, the columns and the counts.
const LINE: usize = 256;

pub const ROOM: usize = (Place::STORE / Place::SIZE + 2) * LINE;

// One byte more than a store may have: enough to tell that one is too long.
pub const INPUT: usize = Place::STORE + 1;

// Record n is record `earlier` once more.
fn is_repeat(store: &[u8], n: usize, earlier: usize) -> bool
    ensures { result ≡ repeats_in placed_form store.now n earlier }
{
    let PlacedReading::Record(again) = placed_record_at(store, n) else {
        return false;
    };
    let PlacedReading::Record(first) = placed_record_at(store, earlier) else {
        return false;
    };
    if again.format != first.format {
        return false;
    }
    if mode_in::<Placed>(store, n) == 0 {
        return false;
    }
    same_block(
        placed_record_block(store, n),
        placed_record_block(store, earlier),
    )
}

// The first record that record n repeats; n where there is none. By a loop: `find` tests its end twice a turn, and
// the audit does little else.
fn first_of(store: &[u8], n: usize) -> usize
    ensures upper_bound { result ≤ n }
    ensures value { result ≡ first_in placed_form store.now n }
{
    for earlier in 0..n {
        if is_repeat(store, n, earlier) {
            return earlier;
        }
    }
    n
}

// Where record n is: its number, tile, face, column and row.
fn put_where(text: &mut [u8], at: usize, store: &[u8], n: usize) -> usize
    requires at_in_bounds { at + 104 ≤ length text.old }
    requires n_bound { n < places_in store.now }
    ensures upper_bound { result ≤ at + 104 }
    ensures written { Written text.old at (where_of store.now n) result text.new }
{
    let end = put_number(text, at, store, n);
    put_place(text, end, place_at(store, n))
}

// The line of record n, which repeats record `first`.
fn put_copy(text: &mut [u8], at: usize, store: &[u8], n: usize, first: usize) -> usize
    requires at_in_bounds { at + 256 ≤ length text.old }
    requires n_bound { n < places_in store.now }
    requires first_bound { first < places_in store.now }
    ensures upper_bound { result ≤ at + 256 }
    ensures written { Written text.old at (copy_line store.now n first) result text.new }
{
    let mut end = put_where(text, at, store, n);
    end = put(text, end, b" ");
    end = put_where(text, end, store, first);
    put(text, end, b"\n")
}

fn put_tally(text: &mut [u8], at: usize, faults: FaultCounts, copies: usize) -> usize
    requires { at + 256 ≤ length text.old }
    ensures upper_bound { result ≤ at + 256 }
    ensures written { Written text.old at (tally_line faults copies) result text.new }
{
    let mut end = put_faults(text, at, faults);
    end = put_count(text, end, b" copies ", copies as u64);
    put(text, end, b"\n")
}

// A line for each copy, and the counts.
fn put_copies(text: &mut [u8], at: usize, store: &[u8]) -> usize
    requires { at + (places_in store.now + 1) * 256 ≤ length text.old }
    ensures upper_bound { result ≤ at + (places_in store.now + 1) * 256 }
    ensures written { Written text.old at (copy_lines store.now (places_in store.now) ++ tally_of store.now (places_in store.now)) result text.new }
{
    let count = store.len() / Place::SIZE;
    let mut copies: usize = 0;
    let mut end: usize = at;
    for n in 0..count {
        let first = first_of(store, n);
        if first == n {
            continue;
        }
        end = put_copy(text, end, store, n, first);
        copies += 1;
    }
    let faults = faults_in::<Placed>(store);
    put_tally(text, end, faults, copies)
}

// The audit of a store at the start of `text`; answers how many bytes it has.
pub fn put_places_audit(text: &mut [u8], store: &[u8]) -> usize
    requires { (most_records + 2) * 256 ≤ length text.old }
    ensures upper_bound { result ≤ length text.new }
    ensures written { Written text.old 0 (audit_of store.now) result text.new }
{
    let refusal = refusal_in::<Placed>(store);
    if refusal != Answer::DONE {
        return put_refusal(text, 0, refusal);
    }
    let end = put(
        text,
        0,
        b"record tile face column row first its-tile its-face its-column its-row\n",
    );
    put_copies(text, end, store)
}
