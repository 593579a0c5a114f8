// Prints what the record call, the block call and the twin list answer at their limits, for a store from standard input.
#![tactic(auto)]

ghost use Rattle.std.specs.Prelude.{◌+◌, ◌≤◌, ◌<◌, length};

use bcn_spec::answer_number;
use run_streams::{Input, first_bytes, read_input, write_text};
use store_records::{Record, record_at, record_block, record_count};
use store_spec::TwinList;
use store_twins::twin_list;
use text::{put, put_count};

// One record more than a store may have, and the bytes of such a store and one more.
const RECORDS: usize = TwinList::RECORDS + 1;

const INPUT: usize = RECORDS * Record::SIZE + 1;

// What the lent marks hold before a call.
const UNTOUCHED: u8 = 9;

// What is answered for record n.
fn print_record(rt: &(impl Print + Eprint), text: &mut [u8], store: &[u8], n: usize)
    requires { 256 ≤ length text.old }
{
    let mut end = put_count(text, 0, b"record ", n as u64);
    end = put_count(
        text,
        end,
        b" answer ",
        answer_number(record_at(store, n)) as u64,
    );
    end = put_count(text, end, b" block ", record_block(store, n).len() as u64);
    end = put(text, end, b"\n");
    write_text(rt, text, end);
}

fn put_list(text: &mut [u8], at: usize, list: TwinList) -> usize
    requires { at + 106 ≤ length text.old }
    ensures { result ≤ at + 106 }
{
    let mut end = put_count(text, at, b" answer ", list.answer as u64);
    end = put_count(text, end, b" kept ", list.kept as u64);
    end = put_count(text, end, b" twins ", list.twins as u64);
    put_count(text, end, b" bad ", list.bad as u64)
}

// The first mark and the one after those lent.
fn put_marks(text: &mut [u8], at: usize, marks: &[u8], lent: usize) -> usize
    requires at_in_bounds { at + 54 ≤ length text.old }
    requires lent_in_bounds { lent < length marks.now }
    ensures { result ≤ at + 54 }
{
    let mut end = put_count(text, at, b" first ", u64::from(marks[0]));
    end = put_count(text, end, b" next ", u64::from(marks[lent]));
    put(text, end, b"\n")
}

fn list_lent(store: &[u8], marks: &mut [u8], lent: usize) -> TwinList
    requires { lent ≤ length marks.old }
{
    twin_list(store, &mut marks[..lent])
}

// What the twin list answers where so many marks are lent, and what the first mark and the one after those lent then are.
fn print_list(
    rt: &(impl Print + Eprint),
    text: &mut [u8],
    store: &[u8],
    marks: &mut [u8],
    lent: usize,
)
    requires { 256 ≤ length text.old }
{
    if lent >= marks.len() {
        return;
    }
    let list = list_lent(store, marks, lent);
    let mut end = put_count(text, 0, b"marks ", lent as u64);
    end = put_list(text, end, list);
    end = put_marks(text, end, marks, lent);
    write_text(rt, text, end);
}

fn print_limits(rt: &(impl Print + Eprint), text: &mut [u8], store: &[u8], marks: &mut [u8])
    requires { 256 ≤ length text.old }
{
    let count = record_count(store);
    if count == 0 {
        print_at(rt, text, store, marks, 0);
        return;
    }
    print_at(rt, text, store, marks, count - 1);
    print_at(rt, text, store, marks, count);
}

fn print_at(rt: &(impl Print + Eprint), text: &mut [u8], store: &[u8], marks: &mut [u8], n: usize)
    requires { 256 ≤ length text.old }
{
    print_record(rt, text, store, n);
    print_list(rt, text, store, marks, n);
}

fn main(rt: HostRuntime) {
    let mut input = [0u8; INPUT];
    let Input::Whole(size) = read_input(&rt, &mut input) else {
        return;
    };
    let mut marks = [UNTOUCHED; RECORDS];
    let mut text = [0u8; 256];
    print_limits(&rt, &mut text, first_bytes(&input, size), &mut marks);
}
