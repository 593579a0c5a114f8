// A place for a record: a store of records with a place, copied, with the place of one record set.
#![tactic(auto)]

ghost use Rattle.std.specs.Prelude.{◌≡◌, ◌++◌, ◌+◌, ◌*◌, ◌≤◌, ◌<◌, length, drop};
ghost use Rattle.std.proofs.lemmas.List.Edits.{sets};
ghost use Rattle.probe_places.specs.Places.{place_size, places_in, most_places};
ghost use Rattle.probe_put.specs.Put.{place_bytes, own_refusal, putting_fault, PlacePut};

use bcn_spec::Answer;
use probe_moves::Moved;
use probe_places::{Fault, Place, place_record_refusal};

// Why record n cannot have a place: its format or its spare bytes. The place that it has does not matter.
fn head_refusal(store: &[u8], n: usize) -> u8
    requires { n < places_in store.now }
    ensures { result ≡ own_refusal store.now n }
{
    let refusal = place_record_refusal(store, n);
    if refusal == Answer::BAD_PLACE {
        return Answer::DONE;
    }
    refusal
}

// Why the place is not put, and the record that is why.
fn putting_fault(store: &[u8], n: usize, place: Place, room: usize) -> Fault
    ensures { result ≡ putting_fault store.now n place room }
{
    if store.len() > Place::STORE {
        return Fault::alone(Answer::LONG_STORE);
    }
    if store.len() % Place::SIZE != 0 {
        return Fault::alone(Answer::UNEVEN_STORE);
    }
    if room < store.len() {
        return Fault::alone(Answer::SHORT_OUTPUT);
    }
    if n >= store.len() / Place::SIZE {
        return Fault::alone(Answer::NO_RECORD);
    }
    let refusal = head_refusal(store, n);
    if refusal != Answer::DONE {
        return Fault {
            answer: refusal,
            faulty: n,
        };
    }
    Fault::alone(place.refusal())
}

// The five bytes of a place, in record n.
fn store_place(face: u8, column: u16, row: u16, out: &mut [u8], n: usize)
    requires { (n < most_places) × (n * place_size + place_size ≤ length out.old) }
    ensures { out.new ≡ sets out.old (n * place_size + 5) (place_bytes (record { face = face; column = column; row = row })) }
{
    let at = n * Place::SIZE + 5;
    out[at] = face;
    out[at + 1..at + 3].copy_from_slice(&column.to_le_bytes());
    out[at + 3..at + 5].copy_from_slice(&row.to_le_bytes());
}

// A copy of the store at the start of `out`, by a loop, of which the compiler makes memcpy: the slice's own copy would be memmove, for which the
// archive does not ask.
fn copy_store(store: &[u8], out: &mut [u8])
    requires { length store.now ≤ length out.old }
    ensures { out.new ≡ store.now ++ drop (length store.now) out.old }
{
    for i in 0..store.len() {
        out[i] = store[i];
    }
}

// The store with the place of record n set, in `out`: every other byte is the store's.
pub fn put_place(store: &[u8], n: usize, face: u8, column: u16, row: u16, out: &mut [u8]) -> Moved
    ensures { PlacePut store.now n (record { face = face; column = column; row = row }) out.old result out.new }
{
    let place = Place { face, column, row };
    let fault = putting_fault(store, n, place, out.len());
    if fault.answer != Answer::DONE {
        return Moved::refused(fault);
    }
    copy_store(store, out);
    store_place(face, column, row, out, n);
    Moved::done(store.len() / Place::SIZE)
}
