// The listing of a store of records with a place, as text: a line a record and a last line with the counts, or the line of a refused store.
#![tactic(auto)]

ghost use Rattle.std.specs.Prelude.{◌≡◌, ◌+◌, ◌*◌, ◌≤◌, ◌<◌, length};
ghost use Rattle.store_records.specs.Store.{most_records};
ghost use Rattle.probe_places.specs.Places.{places_in, place_in};
ghost use Rattle.probe_places.specs.Readings.{Readable};
ghost use Rattle.text.specs.Text.{Written};
ghost use Rattle.text_places.specs.Lines.{place_words, record_words, shown_rest, line_of, lines_of, is_placed, is_unplaced, place_counts, counts_line};
ghost use Rattle.text_places.specs.Listing.{listing_refusal, listing_text, listing_of};

use bcn_spec::Answer;
use probe::triple_at;
use probe_places::{Place, PlacedReading, placed_record_at, tile_at};
use store_faulty::{Placed, faults_in, mode_in, one_if, refusal_in};
use text::{put, put_count, put_decimal, put_field, put_refusal};
use text_list::put_triple;

// The most bytes of a line, and the room for a line a record and one more.
const LINE: usize = 192;

pub const ROOM: usize = (Place::STORE / Place::SIZE + 1) * LINE;

// The byte that asks for the strict listing.
const STRICT: u8 = 1;

// That byte and one byte more than a store may have: enough to tell that one is too long.
pub const INPUT: usize = 1 + Place::STORE + 1;

// How many records are placed, how many are not, and how many are refused.
#[derive(Clone, Copy)]
pub struct PlaceCounts {
    pub placed: usize,
    pub unplaced: usize,
    pub bad: usize,
}

// Face, column and row, where the record has them.
pub fn put_place(text: &mut [u8], at: usize, place: Place) -> usize
    requires { at + 62 ≤ length text.old }
    ensures upper_bound { result ≤ at + 62 }
    ensures written { Written text.old at (place_words place) result text.new }
{
    if place.face >= Place::FACES {
        return put(text, at, b"- - -");
    }
    let mut end = put_field(text, at, place.face as u64);
    end = put_field(text, end, place.column as u64);
    put_decimal(text, end, place.row as u64)
}

// The number and the tile of record n.
pub fn put_number(text: &mut [u8], at: usize, store: &[u8], n: usize) -> usize
    requires at_in_bounds { at + 42 ≤ length text.old }
    requires n_bound { n < places_in store.now }
    ensures upper_bound { result ≤ at + 42 }
    ensures written { Written text.old at (record_words store.now n) result text.new }
{
    let end = put_field(text, at, n as u64);
    put_field(text, end, tile_at(store, n) as u64)
}

// The mode, the place and pixel 15 of record n, which is not refused.
fn put_shown(text: &mut [u8], at: usize, store: &[u8], n: usize, place: Place) -> usize
    requires at_in_bounds { at + 99 ≤ length text.old }
    requires readable { Readable store.now n }
    requires place_value { place ≡ place_in store.now n }
    ensures upper_bound { result ≤ at + 99 }
    ensures written { Written text.old at (shown_rest store.now n) result text.new }
{
    let triple = triple_at(store, n, 15);
    let mut end = put_field(text, at, mode_in::<Placed>(store, n) as u64);
    end = put_place(text, end, place);
    end = put(text, end, b" ");
    put_triple(text, end, triple[0], triple[1], triple[2])
}

// The line of record n.
fn put_record(text: &mut [u8], at: usize, store: &[u8], n: usize) -> usize
    requires at_in_bounds { at + 192 ≤ length text.old }
    requires n_bound { n < places_in store.now }
    ensures upper_bound { result ≤ at + 192 }
    ensures written { Written text.old at (line_of store.now n) result text.new }
{
    let mut end = put_number(text, at, store, n);
    let reading = placed_record_at(store, n);
    end = put_field(text, end, reading.number() as u64);
    let PlacedReading::Record(found) = reading else {
        return put(text, end, b"- - - - - - -\n");
    };
    put_shown(text, end, store, n, found.place)
}

// The lines of all records.
fn put_records(text: &mut [u8], store: &[u8]) -> usize
    requires { places_in store.now * 192 ≤ length text.old }
    ensures upper_bound { result ≤ places_in store.now * 192 }
    ensures written { Written text.old 0 (lines_of store.now (places_in store.now)) result text.new }
{
    let count = store.len() / Place::SIZE;
    let mut end: usize = 0;
    for n in 0..count {
        end = put_record(text, end, store, n);
    }
    end
}

// Record n is not refused and has a place.
fn is_placed(store: &[u8], n: usize) -> bool
    ensures { result ≡ is_placed store.now n }
{
    let PlacedReading::Record(found) = placed_record_at(store, n) else {
        return false;
    };
    found.place.face < Place::FACES
}

// Record n is not refused and has no place.
fn is_unplaced(store: &[u8], n: usize) -> bool
    ensures { result ≡ is_unplaced store.now n }
{
    let PlacedReading::Record(found) = placed_record_at(store, n) else {
        return false;
    };
    !(found.place.face < Place::FACES)
}

fn count_places(store: &[u8]) -> PlaceCounts
    ensures { result ≡ place_counts store.now }
{
    let count = store.len() / Place::SIZE;
    let mut placed: usize = 0;
    let mut unplaced: usize = 0;
    for n in 0..count {
        placed += one_if(is_placed(store, n));
        unplaced += one_if(is_unplaced(store, n));
    }
    let bad = faults_in::<Placed>(store).refused;
    PlaceCounts {
        placed,
        unplaced,
        bad,
    }
}

fn put_counts(text: &mut [u8], at: usize, counts: PlaceCounts) -> usize
    requires { at + 128 ≤ length text.old }
    ensures upper_bound { result ≤ at + 128 }
    ensures written { Written text.old at (counts_line counts) result text.new }
{
    let mut end = put_count(text, at, b"placed ", counts.placed as u64);
    end = put_count(text, end, b" unplaced ", counts.unplaced as u64);
    end = put_count(text, end, b" bad ", counts.bad as u64);
    put(text, end, b"\n")
}

// Why a store is not listed.
fn listing_refusal(store: &[u8], strict: bool) -> u8
    ensures { result ≡ listing_refusal strict store.now }
{
    let refusal = refusal_in::<Placed>(store);
    if refusal != Answer::DONE {
        return refusal;
    }
    if !strict {
        return Answer::DONE;
    }
    if faults_in::<Placed>(store).damaged > 0 {
        return Answer::RESERVED_BLOCK;
    }
    Answer::DONE
}

// The listing of a store at the start of `text`; answers how many bytes it has.
fn put_listing(text: &mut [u8], store: &[u8], strict: bool) -> usize
    requires { (most_records + 1) * 192 ≤ length text.old }
    ensures upper_bound { result ≤ length text.new }
    ensures written { Written text.old 0 (listing_text strict store.now) result text.new }
{
    let refusal = listing_refusal(store, strict);
    if refusal != Answer::DONE {
        return put_refusal(text, 0, refusal);
    }
    let end = put_records(text, store);
    let counts = count_places(store);
    put_counts(text, end, counts)
}

// The same of an input: its first byte asks for the strict listing, the others are the store.
pub fn put_input(text: &mut [u8], input: &[u8]) -> usize
    requires { (most_records + 1) * 192 ≤ length text.old }
    ensures upper_bound { result ≤ length text.new }
    ensures written { Written text.old 0 (listing_of input.now) result text.new }
{
    if input.len() == 0 {
        return put_listing(text, input, false);
    }
    put_listing(text, &input[1..], input[0] == STRICT)
}
