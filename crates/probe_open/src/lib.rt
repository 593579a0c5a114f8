// A probe that is opened once: a table of its records by place, and its pixels by that table.
#![tactic(auto)]

ghost use Rattle.std.specs.Prelude.{◌≡◌, ◌/◌, ◌<◌, ◌≤◌, length};
ghost use Rattle.probe_places.specs.Places.{face_count};
ghost use Rattle.probe.specs.Probe.{edge_limit, place_count};
ghost use Rattle.probe_open.specs.Open.{Opened, holder_refusal, holder_at, TablePixel};

use bcn_spec::Answer;
use probe::{ProbePixel, check_places, number_at, question_refusal, triple_at};
use probe_places::{Fault, Place};

// Whether a store is a probe of the edge; then the table has each place's record, plus 1.
pub fn probe_open(store: &[u8], edge: usize, table: &mut [u16]) -> Fault
    ensures { Opened store.now edge table.old result table.new }
{
    let mut holders = [0u16; ProbePixel::PLACES];
    let fault = check_places(store, edge, &mut holders);
    if fault.answer != Answer::DONE {
        return fault;
    }
    if table.len() < ProbePixel::PLACES {
        return Fault::alone(Answer::SHORT_OUTPUT);
    }
    table[..ProbePixel::PLACES].copy_from_slice(&holders);
    Fault::none()
}

// Why a holder of the table shows nothing: no record, a record past the store, a format that is none.
fn holder_refusal(store: &[u8], holder: usize) -> u8
    ensures { result ≡ holder_refusal store.now holder }
{
    if holder == 0 {
        return Answer::EMPTY_PLACE;
    }
    if holder > store.len() / Place::SIZE {
        return Answer::NO_RECORD;
    }
    if store[(holder - 1) * Place::SIZE + 4] > 1 {
        return Answer::BAD_FORMAT;
    }
    Answer::DONE
}

// The holder of the place of a pixel.
fn holder_at(table: &[u16], edge: usize, face: usize, x: usize, y: usize) -> usize
    requires { (place_count ≤ length table.now) × (edge ≤ edge_limit) × (face < face_count) × (x / 4 < edge) × (y / 4 < edge) }
    ensures { result ≡ holder_at table.now face x y }
{
    usize::from(table[number_at(face, x / 4, y / 4)])
}

// The pixel of a probe by face, x and y, where `table` is what opening it left.
pub fn probe_pixel_in(
    store: &[u8],
    table: &[u16],
    edge: usize,
    face: usize,
    x: usize,
    y: usize,
) -> ProbePixel
    ensures { TablePixel store.now table.now edge face x y result }
{
    if edge == 0 {
        return ProbePixel::refused(Answer::BAD_EDGE, 0);
    }
    if edge > ProbePixel::EDGE {
        return ProbePixel::refused(Answer::BAD_EDGE, 0);
    }
    let question = question_refusal(edge, face, x, y);
    if question != Answer::DONE {
        return ProbePixel::refused(question, 0);
    }
    if table.len() < ProbePixel::PLACES {
        return ProbePixel::refused(Answer::SHORT_OUTPUT, 0);
    }
    let holder = holder_at(table, edge, face, x, y);
    let refusal = holder_refusal(store, holder);
    if refusal != Answer::DONE {
        return ProbePixel::refused(refusal, 0);
    }
    let triple = triple_at(store, holder - 1, 4 * (y % 4) + x % 4);
    ProbePixel {
        answer: Answer::DONE,
        faulty: 0,
        r: triple[0],
        g: triple[1],
        b: triple[2],
    }
}
