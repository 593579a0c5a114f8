// Which records of a store are faulty, and why: refused by the record call, or damaged. For both forms of a record.
#![tactic(auto)]

ghost use Rattle.std.specs.Prelude.{◌≡◌, ℕ, ◌≤◌, ◌<◌, length};
ghost use Rattle.laws.specs.Pick.{pick};
ghost use Rattle.bcn_spec.specs.Answers.{done};
ghost use Rattle.bc6h_spec.specs.Fields.{mode_of};
ghost use Rattle.store_faulty.specs.Faulty.{form_of, count_in, store_refusal, is_refused, is_damaged, cause_of, counts_of};

use bc6_mode::extract_mode;
use bcn_spec::{Answer, answer_number};
use bcn_util::BitStream;
use probe_places::{Place, placed_record_at, placed_record_block};
use store_records::{Record, record_at, record_block};

// A form is told by the bytes of its record. Any byte but that of records with a place stands for 24-byte records.
pub const PLAIN: u8 = 24;

pub const PLACED: u8 = 32;

// A form of a record: what the code does where the forms differ.
pub trait Form {
    // The byte that tells the form.
    ghost byte: { ℕ };

    // The bytes of a record.
    fn size() -> usize
        ensures { result ≡ (form_of byte).size };

    // The most bytes of a store.
    fn limit() -> usize
        ensures { result ≡ (form_of byte).limit };

    // The tile number of record n, refused or not.
    fn tile(store: &[u8], n: usize) -> u32
        requires { n < count_in (form_of byte) store.now }
        ensures { result ≡ (form_of byte).tile store.now n };

    // Why the record call refuses record n.
    fn refusal(store: &[u8], n: usize) -> u8
        ensures { result ≡ (form_of byte).refusal store.now n };

    // The block of record n, which is not refused.
    fn block(store: &[u8], n: usize) -> &[u8]
        requires { (form_of byte).refusal store.now n ≡ done }
        ensures { result.now ≡ (form_of byte).block store.now n };
}

// Records of 24 bytes.
pub struct Plain;

impl Form for Plain {
    ghost byte = { 24 };

    fn size() -> usize {
        Record::SIZE
    }

    fn limit() -> usize {
        Record::STORE
    }

    fn tile(store: &[u8], n: usize) -> u32 {
        store_records::tile_at(store, n)
    }

    fn refusal(store: &[u8], n: usize) -> u8 {
        answer_number(record_at(store, n))
    }

    fn block(store: &[u8], n: usize) -> &[u8] {
        record_block(store, n)
    }
}

// Records with a place.
pub struct Placed;

impl Form for Placed {
    ghost byte = { 32 };

    fn size() -> usize {
        Place::SIZE
    }

    fn limit() -> usize {
        Place::STORE
    }

    fn tile(store: &[u8], n: usize) -> u32 {
        probe_places::tile_at(store, n)
    }

    fn refusal(store: &[u8], n: usize) -> u8 {
        placed_record_at(store, n).number()
    }

    fn block(store: &[u8], n: usize) -> &[u8] {
        placed_record_block(store, n)
    }
}

pub fn records_in<F: Form>(store: &[u8]) -> usize
    ensures { result ≡ count_in (form_of F.byte) store.now }
{
    store.len() / F::size()
}

// Why a store is refused whole.
pub fn refusal_in<F: Form>(store: &[u8]) -> u8
    ensures { result ≡ store_refusal (form_of F.byte) (length store.now) }
{
    if store.len() > F::limit() {
        return Answer::LONG_STORE;
    }
    if store.len() % F::size() != 0 {
        return Answer::UNEVEN_STORE;
    }
    Answer::DONE
}

fn is_refused<F: Form>(store: &[u8], n: usize) -> bool
    ensures { result ≡ is_refused (form_of F.byte) store.now n }
{
    F::refusal(store, n) != Answer::DONE
}

// The mode of record n, which is not refused.
pub fn mode_in<F: Form>(store: &[u8], n: usize) -> usize
    requires { (form_of F.byte).refusal store.now n ≡ done }
    ensures { result ≡ mode_of ((form_of F.byte).block store.now n) }
{
    extract_mode(BitStream::new(F::block(store, n)))
}

// Record n is not refused and has a reserved mode.
fn is_damaged<F: Form>(store: &[u8], n: usize) -> bool
    ensures { result ≡ is_damaged (form_of F.byte) store.now n }
{
    if F::refusal(store, n) != Answer::DONE {
        return false;
    }
    mode_in::<F>(store, n) == 0
}

// Why record n is faulty; 0 where it is sound.
pub fn cause_in<F: Form>(store: &[u8], n: usize) -> u8
    ensures { result ≡ cause_of (form_of F.byte) store.now n }
{
    if is_damaged::<F>(store, n) {
        return Answer::RESERVED_BLOCK;
    }
    F::refusal(store, n)
}

pub fn one_if(test: bool) -> usize
    ensures upper_bound { result ≤ 1 }
    ensures value { result ≡ pick test 1 0 }
{
    if test { 1 } else { 0 }
}

#[derive(Clone, Copy)]
pub struct FaultCounts {
    pub refused: usize,
    pub damaged: usize,
}

pub fn faults_in<F: Form>(store: &[u8]) -> FaultCounts
    ensures { result ≡ counts_of (form_of F.byte) store.now }
{
    let count = records_in::<F>(store);
    let mut refused: usize = 0;
    let mut damaged: usize = 0;
    for n in 0..count {
        refused += one_if(is_refused::<F>(store, n));
        damaged += one_if(is_damaged::<F>(store, n));
    }
    FaultCounts { refused, damaged }
}

// ---- the same by a byte that tells the form: 32 for records with a place, any other for 24-byte records

pub fn record_count(form: u8, store: &[u8]) -> usize
    ensures { result ≡ count_in (form_of form) store.now }
{
    if form == PLACED {
        return records_in::<Placed>(store);
    }
    records_in::<Plain>(store)
}

pub fn store_refusal(form: u8, store: &[u8]) -> u8
    ensures { result ≡ store_refusal (form_of form) (length store.now) }
{
    if form == PLACED {
        return refusal_in::<Placed>(store);
    }
    refusal_in::<Plain>(store)
}

pub fn tile_of(form: u8, store: &[u8], n: usize) -> u32
    requires { n < count_in (form_of form) store.now }
    ensures { result ≡ (form_of form).tile store.now n }
{
    if form == PLACED {
        return Placed::tile(store, n);
    }
    Plain::tile(store, n)
}

pub fn mode_of(form: u8, store: &[u8], n: usize) -> usize
    requires { (form_of form).refusal store.now n ≡ done }
    ensures { result ≡ mode_of ((form_of form).block store.now n) }
{
    if form == PLACED {
        return mode_in::<Placed>(store, n);
    }
    mode_in::<Plain>(store, n)
}

pub fn cause_of(form: u8, store: &[u8], n: usize) -> u8
    ensures { result ≡ cause_of (form_of form) store.now n }
{
    if form == PLACED {
        return cause_in::<Placed>(store, n);
    }
    cause_in::<Plain>(store, n)
}

pub fn count_faults(form: u8, store: &[u8]) -> FaultCounts
    ensures { result ≡ counts_of (form_of form) store.now }
{
    if form == PLACED {
        return faults_in::<Placed>(store);
    }
    faults_in::<Plain>(store)
}
