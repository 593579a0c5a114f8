// The moves between the store of 24-byte records and the store of records with a place.
#![tactic(auto)]

ghost use Rattle.std.specs.Prelude.{◌≡◌, ◌++◌, ◌*◌, ◌≤◌, ◌<◌, length, drop};
ghost use Rattle.store_records.specs.Store.{record_size, records_in, record_refusal};
ghost use Rattle.probe_places.specs.Faults.{first_fault};
ghost use Rattle.probe_places.specs.Places.{place_size, places_in};
ghost use Rattle.probe_moves.specs.Moves.{placed_at, placed_store, old_at, old_store, back_refusal, placing_fault, unplacing_fault, moved_at, PlacedStore, UnplacedStore};

use bcn_spec::{Answer, answer_number};
use probe_places::{Fault, Place, place_at, place_record_refusal};
use store_records::{Record, record_at, record_count};

// What a move answers: its number, how many records were moved, and the number of the first faulty record where a record is why none was.
#[derive(Clone, Copy)]
pub struct Moved {
    pub answer: u8,
    pub records: usize,
    pub faulty: usize,
}

impl Moved {
    pub fn refused(fault: Fault) -> Moved
        ensures { result ≡ record { answer = fault.answer; records = 0; faulty = fault.faulty } }
    {
        Moved {
            answer: fault.answer,
            records: 0,
            faulty: fault.faulty,
        }
    }

    pub fn done(records: usize) -> Moved
        ensures { result ≡ moved_at 0 0 records }
    {
        Moved {
            answer: Answer::DONE,
            records,
            faulty: 0,
        }
    }
}

// ---- old to new

// The first record of an old store that is refused.
fn first_old_fault(old: &[u8]) -> Fault
    ensures { result ≡ first_fault (record_refusal old.now) (records_in old.now) }
{
    let count = record_count(old);
    for n in 0..count {
        let refusal = answer_number(record_at(old, n));
        if refusal != Answer::DONE {
            return Fault {
                answer: refusal,
                faulty: n,
            };
        }
    }
    Fault::none()
}

// Why an old store does not move into so much room.
fn placing_fault(old: &[u8], room: usize) -> Fault
    ensures { result ≡ placing_fault old.now room }
{
    if old.len() > Record::STORE {
        return Fault::alone(Answer::LONG_STORE);
    }
    if old.len() % Record::SIZE != 0 {
        return Fault::alone(Answer::UNEVEN_STORE);
    }
    if room < record_count(old) * Place::SIZE {
        return Fault::alone(Answer::SHORT_OUTPUT);
    }
    first_old_fault(old)
}

// Byte j of the store that an old one becomes.
fn placed_byte(old: &[u8], j: usize) -> u8
    requires { j < records_in old.now * place_size }
    ensures { result ≡ placed_at old.now j }
{
    let at = j / Place::SIZE * Record::SIZE;
    let k = j % Place::SIZE;
    if k < 5 {
        return old[at + k];
    }
    if k == 5 {
        return Place::NONE;
    }
    if k < Place::HEAD {
        return 0;
    }
    old[at + (k - 8)]
}

fn place_records(old: &[u8], out: &mut [u8])
    requires { records_in old.now * place_size ≤ length out.old }
    ensures { out.new ≡ placed_store old.now ++ drop (records_in old.now * place_size) out.old }
{
    let size = record_count(old) * Place::SIZE;
    for j in 0..size {
        out[j] = placed_byte(old, j);
    }
}

// Moves an old store: each of its records, not placed, or none.
pub fn place_store(old: &[u8], out: &mut [u8]) -> Moved
    ensures { PlacedStore old.now out.old result out.new }
{
    let fault = placing_fault(old, out.len());
    if fault.answer != Answer::DONE {
        return Moved::refused(fault);
    }
    place_records(old, out);
    Moved::done(record_count(old))
}

// ---- new to old

// Why record n does not move back.
fn back_refusal(store: &[u8], n: usize) -> u8
    requires { n < places_in store.now }
    ensures { result ≡ back_refusal store.now n }
{
    let refusal = place_record_refusal(store, n);
    if refusal != Answer::DONE {
        return refusal;
    }
    if place_at(store, n).face < Place::FACES {
        return Answer::PLACED_RECORD;
    }
    Answer::DONE
}

// The first record that does not move back.
fn first_back_fault(store: &[u8]) -> Fault
    ensures { result ≡ first_fault (back_refusal store.now) (places_in store.now) }
{
    let count = store.len() / Place::SIZE;
    for n in 0..count {
        let refusal = back_refusal(store, n);
        if refusal != Answer::DONE {
            return Fault {
                answer: refusal,
                faulty: n,
            };
        }
    }
    Fault::none()
}

// Why a store does not move back into so much room.
fn unplacing_fault(store: &[u8], room: usize) -> Fault
    ensures { result ≡ unplacing_fault store.now room }
{
    if store.len() > Place::STORE {
        return Fault::alone(Answer::LONG_STORE);
    }
    if store.len() % Place::SIZE != 0 {
        return Fault::alone(Answer::UNEVEN_STORE);
    }
    if room < store.len() / Place::SIZE * Record::SIZE {
        return Fault::alone(Answer::SHORT_OUTPUT);
    }
    first_back_fault(store)
}

// Byte j of the old store that a new one becomes.
fn old_byte(store: &[u8], j: usize) -> u8
    requires { j < places_in store.now * record_size }
    ensures { result ≡ old_at store.now j }
{
    let at = j / Record::SIZE * Place::SIZE;
    let k = j % Record::SIZE;
    if k < 5 {
        return store[at + k];
    }
    if k < Record::HEAD {
        return 0;
    }
    store[at + (k + 8)]
}

fn unplace_records(store: &[u8], out: &mut [u8])
    requires { places_in store.now * record_size ≤ length out.old }
    ensures { out.new ≡ old_store store.now ++ drop (places_in store.now * record_size) out.old }
{
    let size = store.len() / Place::SIZE * Record::SIZE;
    for j in 0..size {
        out[j] = old_byte(store, j);
    }
}

// Moves a store back: all of its records, none of them placed, or nothing.
pub fn unplace_store(store: &[u8], out: &mut [u8]) -> Moved
    ensures { UnplacedStore store.now out.old result out.new }
{
    let fault = unplacing_fault(store, out.len());
    if fault.answer != Answer::DONE {
        return Moved::refused(fault);
    }
    unplace_records(store, out);
    Moved::done(store.len() / Place::SIZE)
}
