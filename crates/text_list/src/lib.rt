// The lines of a store's listing: a line a record, and the line with the counts.
#![tactic(auto)]

ghost use Rattle.std.specs.Prelude.{◌≡◌, ◌+◌, ◌*◌, ◌≤◌, length};
ghost use Rattle.store_records.specs.Store.{records_in, format_of, Unrefused};
ghost use Rattle.store_spec.specs.Shown.{picture_at};
ghost use Rattle.store_spec.specs.Twins.{mark_at, Marks};
ghost use Rattle.text.specs.Text.{Written};
ghost use Rattle.text_list.specs.Lines.{hex_triple, shown_rest, refused_rest, line_of, lines_of, counts_line};

use bc6::block_pixels;
use bc6h_spec::Picture;
use bcn_spec::answer_number;
use store_records::{record_at, record_block, record_count, tile_at};
use store_scratch::mode_at;
use store_spec::TwinList;
use text::{put, put_count, put_field, put_hex};

// The 48 values of record n, which is not refused.
fn picture_of(store: &[u8], n: usize, format: u8) -> [u16; Picture::VALUES]
    requires unrefused { Unrefused store.now n }
    requires format_value { format ≡ format_of store.now n }
    ensures { result ≡ picture_at store.now n }
{
    let mut values = [0u16; Picture::VALUES];
    let _ = block_pixels(record_block(store, n), format, &mut values);
    values
}

// The three values of a pixel, and the end of the line.
pub fn put_triple(text: &mut [u8], at: usize, red: u16, green: u16, blue: u16) -> usize
    requires { at + 15 ≤ length text.old }
    ensures value { result ≡ at + 15 }
    ensures written { Written text.old at (hex_triple red green blue) result text.new }
{
    let mut end = put_hex(text, at, red);
    end = put(text, end, b" ");
    end = put_hex(text, end, green);
    end = put(text, end, b" ");
    end = put_hex(text, end, blue);
    put(text, end, b"\n")
}

// The mode, the mark and pixel 15 of record n, which is not refused.
fn put_picture(text: &mut [u8], at: usize, store: &[u8], n: usize, format: u8, mark: u8) -> usize
    requires at_in_bounds { at + 60 ≤ length text.old }
    requires unrefused { Unrefused store.now n }
    requires format_value { format ≡ format_of store.now n }
    requires mark_value { mark ≡ mark_at store.now n }
    ensures upper_bound { result ≤ at + 60 }
    ensures written { Written text.old at (shown_rest store.now n) result text.new }
{
    let values = picture_of(store, n, format);
    let mut end = put_field(text, at, mode_at(store, n) as u64);
    end = put_field(text, end, mark as u64);
    put_triple(text, end, values[45], values[46], values[47])
}

// The mark of record n, which is refused, with nothing to show of its picture.
fn put_refused(text: &mut [u8], at: usize, store: &[u8], n: usize, mark: u8) -> usize
    requires at_in_bounds { at + 60 ≤ length text.old }
    requires mark_value { mark ≡ mark_at store.now n }
    ensures upper_bound { result ≤ at + 60 }
    ensures written { Written text.old at (refused_rest store.now n) result text.new }
{
    let mut end = put(text, at, b"- ");
    end = put_field(text, end, mark as u64);
    put(text, end, b"- - -\n")
}

// The line of record n.
fn put_record(text: &mut [u8], at: usize, store: &[u8], n: usize, mark: u8) -> usize
    requires at_in_bounds { at + 128 ≤ length text.old }
    requires mark_value { mark ≡ mark_at store.now n }
    ensures upper_bound { result ≤ at + 128 }
    ensures written { Written text.old at (line_of store.now n) result text.new }
{
    let mut end = put_field(text, at, n as u64);
    end = put_field(text, end, tile_at(store, n) as u64);
    let reading = record_at(store, n);
    end = put_field(text, end, answer_number(reading) as u64);
    let Ok(found) = reading else {
        return put_refused(text, end, store, n, mark);
    };
    put_picture(text, end, store, n, found.format, mark)
}

// The lines of all records.
pub fn put_records(text: &mut [u8], store: &[u8], marks: &[u8]) -> usize
    requires store_in_bounds { (records_in store.now + 1) * 128 ≤ length text.old }
    requires store_in_bounds_2 { records_in store.now ≤ length marks.now }
    requires marks { Marks store.now marks.now }
    ensures upper_bound { result ≤ records_in store.now * 128 }
    ensures written { Written text.old 0 (lines_of store.now (records_in store.now)) result text.new }
{
    let count = record_count(store);
    let mut end: usize = 0;
    for n in 0..count {
        end = put_record(text, end, store, n, marks[n]);
    }
    end
}

pub fn put_counts(text: &mut [u8], at: usize, list: TwinList) -> usize
    requires { at + 128 ≤ length text.old }
    ensures upper_bound { result ≤ at + 128 }
    ensures written { Written text.old at (counts_line list.kept list.twins list.bad) result text.new }
{
    let mut end = put_count(text, at, b"kept ", list.kept as u64);
    end = put_count(text, end, b" twins ", list.twins as u64);
    end = put_count(text, end, b" bad ", list.bad as u64);
    put(text, end, b"\n")
}
