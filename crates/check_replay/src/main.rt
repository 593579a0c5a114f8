// Replays a fixed list of the Rust decoder's answers. Standard input is a run of entries, each a format, a block and what
// the Rust answers: number, mode, count of minus infinities and 48 values, low byte first. Prints each entry that our call answers otherwise, and how
// many agree.
#![tactic(auto)]

ghost use Rattle.std.specs.Prelude.{◌≡◌, ◌/◌, ◌<◌, IfOk, length};
ghost use Rattle.laws.specs.Every.{same};
ghost use Rattle.bc6h_spec.specs.Picture.{value_count};
ghost use Rattle.check_replay.specs.Entries.{replay_size, entry_value, values_in, infinite_in, agrees, count_at, agreeing};
ghost use Rattle.bc6.specs.Call.{told as told_of};

use bc6::Shown;
use bcn_spec::{Refusal, answer_number};
use raw_bytes::u16_at;
use run_streams::read_full;
use std::io;

// An entry's bytes, and where its parts begin.
const SIZE: usize = 117;

const BLOCK: usize = 1;

const ANSWER: usize = 17;

const MODE: usize = 18;

const COUNT: usize = 19;

const VALUES: usize = 21;

// Value k of an entry's values, low byte first.
fn value_at(bytes: &[u8], k: usize) -> u16
    requires { (length bytes.now ≡ 96) × (k < value_count) }
    ensures { result ≡ entry_value bytes.now k }
{
    u16_at(bytes, 2 * k)
}

fn same_values(values: &[u16], bytes: &[u8]) -> bool
    requires { (length values.now ≡ value_count) × (length bytes.now ≡ 96) }
    ensures { result ≡ same values.now (values_in bytes.now) }
{
    (0..48).all(|k| values[k] == value_at(bytes, k))
}

// The count of minus infinities that an entry has, low byte first.
fn infinite_in(entry: &[u8]) -> u16
    requires { length entry.now ≡ replay_size }
    ensures { result ≡ infinite_in entry.now }
{
    u16_at(entry, COUNT)
}

// What the call tells of a block; nothing where it refuses.
fn shown_of(told: Result<Shown, Refusal>) -> Shown
    ensures mode_value { result.mode ≡ (told_of told).mode }
    ensures infinite_value { result.infinite ≡ (told_of told).infinite }
{
    match told {
        Ok(shown) => shown,
        Err(_) => Shown {
            mode: 0,
            infinite: 0,
        },
    }
}

// Whether our call answers an entry's block as the entry says.
fn agrees(entry: &[u8]) -> bool
    requires { length entry.now ≡ replay_size }
    ensures { result ≡ agrees entry.now }
{
    let mut values = [0u16; 48];
    let block = &entry[BLOCK..ANSWER];
    let told = bc6::block_pixels(block, entry[0], &mut values);
    if answer_number(told) != entry[ANSWER] {
        return false;
    }
    let shown = shown_of(told);
    if shown.mode != entry[MODE] {
        return false;
    }
    if shown.infinite != infinite_in(entry) {
        return false;
    }
    same_values(&values, &entry[VALUES..SIZE])
}

fn print_word(rt: &impl Print, word: &[u8]) -> io::Result<()> {
    rt.write_all(word)
}

fn print_number(rt: &impl Print, number: usize) -> io::Result<()> {
    print!(rt; "{number}")
}

fn print_difference(rt: &impl Print, entry: usize) -> io::Result<()> {
    print_word(rt, b"entry ")?;
    print_number(rt, entry)?;
    print_word(rt, b" differs\n")
}

fn print_counts(rt: &impl Print, agreeing: usize, entries: usize) -> io::Result<()> {
    print_number(rt, agreeing)?;
    print_word(rt, b" of ")?;
    print_number(rt, entries)?;
    print_word(rt, b" agree\n")
}

// 1 where entry n of the list agrees; else 0, and the entry's number is printed.
fn replay_one(rt: &impl Print, list: &[u8], n: usize) -> io::Result<usize>
    requires { n < length list.now / replay_size }
    ensures { IfOk result (λ count. count ≡ count_at list.now n) }
{
    let start = n * SIZE;
    if agrees(&list[start..start + SIZE]) {
        return Ok(1);
    }
    print_difference(rt, n)?;
    Ok(0)
}

// How many entries of the list agree.
fn replay(rt: &impl Print, list: &[u8]) -> io::Result<usize>
    ensures { IfOk result (λ count. count ≡ agreeing list.now (length list.now / replay_size)) }
{
    let entries = list.len() / SIZE;
    let mut count: usize = 0;
    for n in 0..entries {
        count += replay_one(rt, list, n)?;
    }
    Ok(count)
}

fn main(rt: HostRuntime) -> io::Result<()> {
    let mut list = [0u8; 471040];
    let n = read_full(&mut rt.reader(), &mut list)?;
    let entries = &list[..n];
    print_counts(&rt, replay(&rt, entries)?, entries.len() / SIZE)
}
