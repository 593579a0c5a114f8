// The records of a store in which a value is minus infinity, as text: a line a record and a last line with the counts, or the line of a
// refused store.
#![tactic(auto)]

ghost use Rattle.std.specs.Prelude.{◌≡◌, ◌++◌, ◌+◌, ◌*◌, ◌≤◌, length};
ghost use Rattle.laws.specs.First.{first_below};
ghost use Rattle.bc6h_spec.specs.Picture.{value_count};
ghost use Rattle.store_records.specs.Store.{records_in, store_limit, most_records};
ghost use Rattle.text.specs.Text.{Written};
ghost use Rattle.text_infinities.specs.Infinities.{infinite_at, finding_of, channel_word, finding_line, infinite_lines, counts_line, counts_of, infinities_text};

use bc6::block_pixels;
use bc6h_spec::Picture;
use bcn_spec::Answer;
use store_marks::list_refusal;
use store_records::{record_at, record_block, record_count, tile_at};
use store_spec::TwinList;
use text::{put, put_count, put_field, put_refusal};

const MINUS_INFINITY: u16 = 0xFC00;

// The most bytes of a line, and the room for a line a record and one more.
const LINE: usize = 128;

pub const ROOM: usize = (TwinList::RECORDS + 1) * LINE;

// The first value that is minus infinity, or 48 where none is.
fn first_infinite(values: &[u16]) -> usize
    requires { length values.now ≡ value_count }
    ensures { result ≡ first_below (infinite_at values.now) value_count }
{
    (0..Picture::VALUES)
        .find(|j| values[*j] == MINUS_INFINITY)
        .unwrap_or(Picture::VALUES)
}

// How many values of a record are minus infinity, and the first of them.
#[derive(Clone, Copy)]
pub struct Finding {
    pub infinite: usize,
    pub first: usize,
}

// A record that is refused has no values.
fn examine(store: &[u8], n: usize) -> Finding
    ensures infinite_bound { result.infinite ≤ 65535 }
    ensures value { result ≡ finding_of store.now n }
{
    let Ok(found) = record_at(store, n) else {
        return Finding {
            infinite: 0,
            first: Picture::VALUES,
        };
    };
    let mut values = [0u16; Picture::VALUES];
    let Ok(shown) = block_pixels(record_block(store, n), found.format, &mut values) else {
        unreachable!()
    };
    Finding {
        infinite: usize::from(shown.infinite),
        first: first_infinite(&values),
    }
}

fn put_channel(text: &mut [u8], at: usize, channel: usize) -> usize
    requires { at + 6 ≤ length text.old }
    ensures upper_bound { result ≤ at + 6 }
    ensures written { Written text.old at (channel_word channel) result text.new }
{
    if channel == 0 {
        return put(text, at, b"red\n");
    }
    if channel == 1 {
        return put(text, at, b"green\n");
    }
    put(text, at, b"blue\n")
}

// The line of record n.
fn put_finding(text: &mut [u8], at: usize, store: &[u8], n: usize, finding: Finding) -> usize
    requires { at + 128 ≤ length text.old }
    ensures upper_bound { result ≤ at + 128 }
    ensures written { Written text.old at (finding_line store.now n finding) result text.new }
{
    let mut end = put_field(text, at, n as u64);
    end = put_field(text, end, tile_at(store, n) as u64);
    end = put_field(text, end, finding.infinite as u64);
    end = put_field(text, end, (finding.first / 3) as u64);
    put_channel(text, end, finding.first % 3)
}

fn put_counts(text: &mut [u8], at: usize, records: usize, values: usize) -> usize
    requires { at + 128 ≤ length text.old }
    ensures upper_bound { result ≤ at + 128 }
    ensures written { Written text.old at (counts_line records values) result text.new }
{
    let mut end = put_count(text, at, b"records ", records as u64);
    end = put_count(text, end, b" values ", values as u64);
    put(text, end, b"\n")
}

// A line for each record that has such a value, and the counts.
fn put_findings(text: &mut [u8], store: &[u8]) -> usize
    requires store_in_bounds { (records_in store.now + 1) * 128 ≤ length text.old }
    requires store_len_bound { length store.now ≤ store_limit }
    ensures upper_bound { result ≤ (records_in store.now + 1) * 128 }
    ensures written { Written text.old 0 (infinite_lines store.now (records_in store.now) ++ counts_of store.now (records_in store.now)) result text.new }
{
    let count = record_count(store);
    let mut records: usize = 0;
    let mut values: usize = 0;
    let mut end: usize = 0;
    for n in 0..count {
        let finding = examine(store, n);
        if finding.infinite == 0 {
            continue;
        }
        end = put_finding(text, end, store, n, finding);
        records += 1;
        values += finding.infinite;
    }
    put_counts(text, end, records, values)
}

// What there is to say of a store, at the start of `text`; answers how many bytes it has.
pub fn put_infinities(text: &mut [u8], store: &[u8]) -> usize
    requires { (most_records + 1) * 128 ≤ length text.old }
    ensures upper_bound { result ≤ length text.new }
    ensures written { Written text.old 0 (infinities_text store.now) result text.new }
{
    let refusal = list_refusal(store, TwinList::RECORDS);
    if refusal != Answer::DONE {
        return put_refusal(text, 0, refusal);
    }
    put_findings(text, store)
}
