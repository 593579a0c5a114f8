// Lists a store: reads it from standard input and writes its listing, a line a record and a last line with the counts, or the line of a
// refused store. With the word --strict a store with a damaged record is refused.
#![tactic(auto)]

ghost use Rattle.std.specs.Prelude.{◌≡◌, ◌+◌, ◌*◌, ◌≤◌, length};
ghost use Rattle.bcn_spec.specs.Answers.{done};
ghost use Rattle.store_records.specs.Store.{store_limit, most_records};
ghost use Rattle.store_spec.specs.Twins.{Listed};
ghost use Rattle.text.specs.Text.{Written};
ghost use Rattle.run_streams.specs.Output.{Outgoing};
ghost use Rattle.run_list.specs.Listing.{listing_refusal, listing_of};

use bcn_spec::Answer;
use run_streams::{Input, STORE_INPUT, first_bytes, read_input, tell, write_text};
use std::env::Env;
use std::io::Stderr;
use store_records::record_count;
use store_spec::TwinList;
use store_twins::{first_damaged, strict_twin_list, twin_list};
use text::{put, put_count, put_refusal};
use text_list::{put_counts, put_records};

// The most bytes of a line, and the room for a line a record and one more.
const LINE: usize = 128;

const ROOM: usize = (TwinList::RECORDS + 1) * LINE;

fn list_records(store: &[u8], marks: &mut [u8], strict: bool) -> TwinList
    requires { length marks.old ≡ most_records }
    ensures answer_value { result.answer ≡ listing_refusal strict store.now }
    ensures listed { result.answer ≡ done → Listed store.now marks.old result marks.new }
{
    if strict {
        return strict_twin_list(store, marks);
    }
    twin_list(store, marks)
}

// The listing of a store at the start of `text`; answers how many bytes it has.
fn put_listing(text: &mut [u8], store: &[u8], strict: bool) -> usize
    requires { (most_records + 1) * 128 ≤ length text.old }
    ensures upper_bound { result ≤ length text.new }
    ensures written { Written text.old 0 (listing_of strict store.now) result text.new }
{
    let mut marks = [0u8; TwinList::RECORDS];
    let list = list_records(store, &mut marks, strict);
    if list.answer != Answer::DONE {
        return put_refusal(text, 0, list.answer);
    }
    let end = put_records(text, store, &marks);
    put_counts(text, end, list)
}

// Whether the program's first word is --strict.
fn is_strict(rt: &impl Env) -> bool {
    let mut word = [0u8; 8];
    let Ok(size) = rt.arg(1, &mut word) else {
        return false;
    };
    size == word.len() && word == *b"--strict"
}

// Which record is the first damaged one, on standard error.
fn tell_damaged(stderr: &Stderr, store: &[u8]) {
    let first = first_damaged(store);
    if first >= record_count(store) {
        return;
    }
    let mut text = [0u8; 64];
    let mut end = put_count(&mut text, 0, b"first damaged record ", first as u64);
    end = put(&mut text, end, b"\n");
    let _ = tell(stderr, &text, end);
}

// What goes out is the definition of what was read.
fn write_listing(
    rt: &(impl Print + Eprint),
    input: &[u8],
    size: usize,
    text: &[u8],
    end: usize,
    strict: bool,
)
    requires { Outgoing (listing_of strict) store_limit input.now size text.now end }
{
    write_text(rt, text, end);
}

fn main(rt: HostRuntime) {
    let mut input = [0u8; STORE_INPUT];
    let Input::Whole(size) = read_input(&rt, &mut input) else {
        return;
    };
    let mut text = [0u8; ROOM];
    let strict = is_strict(&rt);
    let store = first_bytes(&input, size);
    let end = put_listing(&mut text, store, strict);
    write_listing(&rt, &input, size, &text, end, strict);
    if strict {
        tell_damaged(&rt.stderr(), store);
    }
}
