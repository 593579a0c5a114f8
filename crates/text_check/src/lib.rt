// What there is to say of the faulty records of a store, as text: a line a record and a last line with the counts, or the line of a
// refused store.
#![tactic(auto)]

ghost use Rattle.std.specs.Prelude.{◌+◌, ◌*◌, ◌≤◌, ◌<◌, length};
ghost use Rattle.text.specs.Text.{Written};
ghost use Rattle.store_records.specs.Store.{most_records};
ghost use Rattle.store_faulty.specs.Faulty.{form_of, count_in};
ghost use Rattle.text_check.specs.Checking.{fault_line, check_lines, counts_line, checking_text, checking_of};

use bcn_spec::Answer;
use probe_places::Place;
use store_faulty::{
    FaultCounts, Form, PLACED, Placed, Plain, cause_in, faults_in, records_in, refusal_in,
};
use store_records::Record;
use text::{put, put_count, put_decimal, put_field, put_refusal};

// The most bytes of a line, and the room for a line a record, of either form, and one more.
const LINE: usize = 128;

pub const ROOM: usize = (Record::STORE / Record::SIZE + 1) * LINE;

// The form's byte and one byte more than a store may have: enough to tell that one is too long.
pub const INPUT: usize = 1 + Place::STORE + 1;

// The line of record n.
fn put_fault<F: Form>(text: &mut [u8], at: usize, store: &[u8], n: usize, cause: u8) -> usize
    requires at_in_bounds { at + 128 ≤ length text.old }
    requires n_bound { n < count_in (form_of F.byte) store.now }
    ensures upper_bound { result ≤ at + 128 }
    ensures written { Written text.old at (fault_line (form_of F.byte) store.now n cause) result text.new }
{
    let mut end = put_field(text, at, n as u64);
    end = put_field(text, end, F::tile(store, n) as u64);
    end = put_decimal(text, end, cause as u64);
    put(text, end, b"\n")
}

// A line for each faulty record.
fn put_faults<F: Form>(text: &mut [u8], store: &[u8]) -> usize
    requires { count_in (form_of F.byte) store.now * 128 ≤ length text.old }
    ensures upper_bound { result ≤ count_in (form_of F.byte) store.now * 128 }
    ensures written { Written text.old 0 (check_lines (form_of F.byte) store.now (count_in (form_of F.byte) store.now)) result text.new }
{
    let count = records_in::<F>(store);
    let mut end: usize = 0;
    for n in 0..count {
        let cause = cause_in::<F>(store, n);
        if cause == Answer::DONE {
            continue;
        }
        end = put_fault::<F>(text, end, store, n, cause);
    }
    end
}

fn put_counts(text: &mut [u8], at: usize, records: usize, counts: FaultCounts) -> usize
    requires { at + 128 ≤ length text.old }
    ensures upper_bound { result ≤ at + 128 }
    ensures written { Written text.old at (counts_line records counts) result text.new }
{
    let mut end = put_count(text, at, b"records ", records as u64);
    end = put_count(text, end, b" refused ", counts.refused as u64);
    end = put_count(text, end, b" damaged ", counts.damaged as u64);
    put(text, end, b"\n")
}

// What there is to say of a store, at the start of `text`; answers how many bytes it has.
fn put_checking<F: Form>(text: &mut [u8], store: &[u8]) -> usize
    requires { (most_records + 1) * 128 ≤ length text.old }
    ensures upper_bound { result ≤ length text.new }
    ensures written { Written text.old 0 (checking_text F.byte store.now) result text.new }
{
    let refusal = refusal_in::<F>(store);
    if refusal != Answer::DONE {
        return put_refusal(text, 0, refusal);
    }
    let end = put_faults::<F>(text, store);
    let counts = faults_in::<F>(store);
    put_counts(text, end, records_in::<F>(store), counts)
}

// The same of an input: its first byte is the form, the others are the store.
pub fn put_input(text: &mut [u8], input: &[u8]) -> usize
    requires { (most_records + 1) * 128 ≤ length text.old }
    ensures upper_bound { result ≤ length text.new }
    ensures written { Written text.old 0 (checking_of input.now) result text.new }
{
    if input.len() == 0 {
        return put_checking::<Plain>(text, input);
    }
    if input[0] == PLACED {
        return put_checking::<Placed>(text, &input[1..]);
    }
    put_checking::<Plain>(text, &input[1..])
}
