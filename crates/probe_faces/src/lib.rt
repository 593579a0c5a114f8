// A whole face of a probe: each of its blocks is decoded once, and the pixels go out row by row.
#![tactic(auto)]

ghost use Rattle.std.specs.Prelude.{◌≡◌, ◌++◌, ◌+◌, ◌*◌, ◌≤◌, ◌<◌, length, drop};
ghost use Rattle.laws.specs.Made.{made, join};
ghost use Rattle.probe_places.specs.Places.{face_count, places_in};
ghost use Rattle.probe.specs.Probe.{IsProbe, edge_limit};
ghost use Rattle.probe.specs.Held.{Held};
ghost use Rattle.probe_faces.specs.Face.{face_of, face_refusal, FacePainted};
ghost use Rattle.probe_faces.specs.Strip.{strip_of, piece_value, strip_row, strip_size};

use bc6h_spec::Picture;
use bcn_spec::Answer;
use probe::{ProbePixel, check_places, held_record, show_block};
use probe_places::Fault;

// The values of a row of as many blocks as an edge may have.
const STRIP: usize = 768;

// The values of a row of blocks, block by block.
fn hold_strip(
    store: &[u8],
    edge: usize,
    holders: &[u16],
    face: usize,
    row: usize,
    strip: &mut [u16],
)
    requires probe { IsProbe store.now edge }
    requires held { Held store.now (places_in store.now) holders.now }
    requires face_lt_face_count { (face < face_count) × (row < edge) × (48 * edge ≤ length strip.old) }
    ensures { strip.new ≡ strip_of store.now face row edge ++ drop (48 * edge) strip.old }
{
    for column in 0..edge {
        let n = held_record(store, edge, holders, face, column, row);
        let at = Picture::VALUES * column;
        show_block(store, n, &mut strip[at..]);
    }
}

// Twelve values of a strip, from a place on.
fn copy_piece(strip: &[u16], from: usize, out: &mut [u16])
    requires { (from + 12 ≤ length strip.now) × (12 ≤ length out.old) }
    ensures { out.new ≡ made (piece_value strip.now from) 12 ++ drop 12 out.old }
{
    out[..12].copy_from_slice(&strip[from..from + 12]);
}

// Row k of the pixels in a strip: row k of each of its blocks, copied whole.
fn write_row(strip: &[u16], edge: usize, k: usize, out: &mut [u16])
    requires { (edge ≤ edge_limit) × (k < 4) × (length strip.now ≡ strip_size) × (12 * edge ≤ length out.old) }
    ensures { out.new ≡ strip_row strip.now edge k ++ drop (12 * edge) out.old }
{
    for column in 0..edge {
        let from = 48 * column + 12 * k;
        let to = 12 * column;
        copy_piece(strip, from, &mut out[to..]);
    }
}

// The four rows of the pixels in a strip.
fn write_strip(strip: &[u16], edge: usize, out: &mut [u16])
    requires { (edge ≤ edge_limit) × (length strip.now ≡ strip_size) × (48 * edge ≤ length out.old) }
    ensures { out.new ≡ join (made (strip_row strip.now edge) 4) ++ drop (48 * edge) out.old }
{
    for k in 0..4usize {
        let at = 12 * edge * k;
        write_row(strip, edge, k, &mut out[at..]);
    }
}

// The face of a probe, where its records are held.
fn paint_rows(store: &[u8], edge: usize, holders: &[u16], face: usize, out: &mut [u16])
    requires probe { IsProbe store.now edge }
    requires held { Held store.now (places_in store.now) holders.now }
    requires face_lt_face_count { (face < face_count) × (48 * edge * edge ≤ length out.old) }
    ensures { out.new ≡ face_of store.now edge face ++ drop (48 * edge * edge) out.old }
{
    let mut strip = [0u16; STRIP];
    for row in 0..edge {
        hold_strip(store, edge, holders, face, row, &mut strip);
        let at = 48 * edge * row;
        write_strip(&strip, edge, &mut out[at..]);
    }
}

// Why a face of a probe is not painted.
fn face_refusal(edge: usize, face: usize, room: usize) -> u8
    requires { edge ≤ edge_limit }
    ensures { result ≡ face_refusal edge face room }
{
    if face >= ProbePixel::FACES {
        return Answer::NO_PIXEL;
    }
    if room < 48 * edge * edge {
        return Answer::SHORT_OUTPUT;
    }
    Answer::DONE
}

// Paints a face of a probe, three values a pixel, row by row from the top.
pub fn probe_face(store: &[u8], edge: usize, face: usize, out: &mut [u16]) -> Fault
    ensures { FacePainted store.now edge face out.old result out.new }
{
    let mut holders = [0u16; ProbePixel::PLACES];
    let fault = check_places(store, edge, &mut holders);
    if fault.answer != Answer::DONE {
        return fault;
    }
    let refusal = face_refusal(edge, face, out.len());
    if refusal != Answer::DONE {
        return Fault::alone(refusal);
    }
    paint_rows(store, edge, &holders, face, out);
    Fault::none()
}
