// The audit of a store as text: a line that names the columns, a line for each twin with its verdict, and a last line with the counts; or
// the line of a refused store.
#![tactic(auto)]

ghost use Rattle.std.specs.Prelude.{◌≡◌, ◌++◌, ◌+◌, ◌*◌, ◌≤◌, ltb, length};
ghost use Rattle.laws.specs.Pick.{pick};
ghost use Rattle.store_records.specs.Store.{records_in, most_records};
ghost use Rattle.store_spec.specs.Twins.{first_twin, Marks};
ghost use Rattle.text.specs.Text.{Written};
ghost use Rattle.text_audit.specs.Audit.{finding_of, pair_of, verdict_word, cover_word, twin_line, audit_lines, fault_words, tally_line, tally_of, audit_of};

use bcn_spec::Answer;
use store_clean::first_of;
use store_covered::{is_by_demand_3, is_covered};
use store_faulty::{FaultCounts, count_faults, one_if};
use store_records::{record_count, tile_at};
use store_spec::{Mark, TwinList};
use store_twins::{first_twin, twin_list};
use text::{put, put_count, put_field, put_refusal};

// The most bytes of a line, and the room for a line a record, the columns and the counts, which have two lines' room.
const LINE: usize = 128;

pub const ROOM: usize = (TwinList::RECORDS + 3) * LINE;

// What is told of a twin: the record that stays, whether the twin is its copy, and whether the copies theorem covers the two.
#[derive(Clone, Copy)]
pub struct Finding {
    pub stays: usize,
    pub copy: bool,
    pub covered: bool,
    pub by_demand_3: bool,
}

// The record of the same bytes where there is an earlier one, and else the first that record n looks like.
fn beside(store: &[u8], n: usize, first: usize) -> usize
    ensures { result ≡ pick (ltb first n) first (first_twin store.now n) }
{
    if first < n {
        return first;
    }
    first_twin(store, n)
}

fn examine(store: &[u8], n: usize) -> Finding
    ensures { result ≡ finding_of store.now n }
{
    let first = first_of(store, n);
    let stays = beside(store, n, first);
    Finding {
        stays,
        copy: first < n,
        covered: is_covered(store, n, stays),
        by_demand_3: is_by_demand_3(store, n, stays),
    }
}

fn put_verdict(text: &mut [u8], at: usize, copy: bool) -> usize
    requires { at + 6 ≤ length text.old }
    ensures upper_bound { result ≤ at + 6 }
    ensures written { Written text.old at (verdict_word copy) result text.new }
{
    if copy {
        return put(text, at, b"copy ");
    }
    put(text, at, b"alike ")
}

fn put_cover(text: &mut [u8], at: usize, covered: bool) -> usize
    requires { at + 12 ≤ length text.old }
    ensures upper_bound { result ≤ at + 12 }
    ensures written { Written text.old at (cover_word covered) result text.new }
{
    if covered {
        return put(text, at, b"covered\n");
    }
    put(text, at, b"-\n")
}

// The numbers and tiles of record n and of the one that stays.
fn put_pair(text: &mut [u8], at: usize, store: &[u8], n: usize, stays: usize) -> usize
    requires { at + 84 ≤ length text.old }
    ensures upper_bound { result ≤ at + 84 }
    ensures written { Written text.old at (pair_of store.now n stays) result text.new }
{
    let mut end = put_field(text, at, n as u64);
    end = put_field(text, end, tile_at(store, n) as u64);
    end = put_field(text, end, stays as u64);
    put_field(text, end, tile_at(store, stays) as u64)
}

fn put_twin(text: &mut [u8], at: usize, store: &[u8], n: usize, finding: Finding) -> usize
    requires { at + 128 ≤ length text.old }
    ensures upper_bound { result ≤ at + 128 }
    ensures written { Written text.old at (twin_line store.now n finding) result text.new }
{
    let mut end = put_pair(text, at, store, n, finding.stays);
    end = put_verdict(text, end, finding.copy);
    put_cover(text, end, finding.covered)
}

// How many records are damaged, and how many refused.
pub fn put_faults(text: &mut [u8], at: usize, faults: FaultCounts) -> usize
    requires { at + 64 ≤ length text.old }
    ensures upper_bound { result ≤ at + 64 }
    ensures written { Written text.old at (fault_words faults) result text.new }
{
    let end = put_count(text, at, b"damaged ", faults.damaged as u64);
    put_count(text, end, b" refused ", faults.refused as u64)
}

fn put_tally(
    text: &mut [u8],
    at: usize,
    faults: FaultCounts,
    copies: usize,
    alike: usize,
    covered: usize,
    before: usize,
) -> usize
    requires { at + 256 ≤ length text.old }
    ensures upper_bound { result ≤ at + 256 }
    ensures written { Written text.old at (tally_line faults copies alike covered before) result text.new }
{
    let mut end = put_faults(text, at, faults);
    end = put_count(text, end, b" copies ", copies as u64);
    end = put_count(text, end, b" alike ", alike as u64);
    end = put_count(text, end, b" covered ", covered as u64);
    end = put_count(text, end, b" before ", before as u64);
    put(text, end, b"\n")
}

// A line for each twin, and the counts.
fn put_twins(text: &mut [u8], at: usize, store: &[u8], marks: &[u8]) -> usize
    requires store_in_bounds { at + (records_in store.now + 2) * 128 ≤ length text.old }
    requires store_in_bounds_2 { records_in store.now ≤ length marks.now }
    requires marks { Marks store.now marks.now }
    ensures upper_bound { result ≤ at + (records_in store.now + 2) * 128 }
    ensures written { Written text.old at (audit_lines store.now (records_in store.now) ++ tally_of store.now (records_in store.now)) result text.new }
{
    let count = record_count(store);
    let mut copies: usize = 0;
    let mut alike: usize = 0;
    let mut covered: usize = 0;
    let mut before: usize = 0;
    let mut end: usize = at;
    for n in 0..count {
        if marks[n] != Mark::TWIN {
            continue;
        }
        let finding = examine(store, n);
        end = put_twin(text, end, store, n, finding);
        copies += one_if(finding.copy);
        alike += one_if(!finding.copy);
        covered += one_if(finding.covered);
        before += one_if(finding.by_demand_3);
    }
    let faults = count_faults(store_faulty::PLAIN, store);
    put_tally(text, end, faults, copies, alike, covered, before)
}

// The audit of a store at the start of `text`; answers how many bytes it has.
pub fn put_audit(text: &mut [u8], store: &[u8]) -> usize
    requires { (most_records + 3) * 128 ≤ length text.old }
    ensures upper_bound { result ≤ length text.new }
    ensures written { Written text.old 0 (audit_of store.now) result text.new }
{
    let mut marks = [0u8; TwinList::RECORDS];
    let list = twin_list(store, &mut marks);
    if list.answer != Answer::DONE {
        return put_refusal(text, 0, list.answer);
    }
    let end = put(text, 0, b"record tile stays its-tile verdict theorem\n");
    put_twins(text, end, store, &marks)
}
