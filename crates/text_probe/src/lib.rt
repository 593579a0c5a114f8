// What the program run_probe writes of its question: whether a store is a probe of an edge, as a line; or a face of it as a Portable
// Float Map or an OpenEXR file, each block in the format of its own record.
#![tactic(auto)]

ghost use Rattle.std.specs.Prelude.{◌≡◌, ◌+◌, ◌*◌, ◌<◌, ◌≤◌, length};
ghost use Rattle.probe.specs.Probe.{of_record};
ghost use Rattle.text.specs.Text.{Written};
ghost use Rattle.text_probe.specs.Image.{pixel_up, image_body, image_file, PixelsNumbers};
ghost use Rattle.text_probe.specs.Output.{word_at, faulty_part, fault_line, probe_line, check_output, face_output, probe_output, output_room};

use bcn_spec::Answer;
use exr_square::put_square;
use pfm_floats::{Rgb, put_rgb};
use pfm_header::put_header;
use probe::probe_check;
use probe_build::probe_edge;
use probe_faces::probe_face;
use probe_places::{Fault, Place};
use raw_bytes::{u32_at, u32_to_usize};
use text::{put, put_count};

// The kinds of a question: told of the edge, a face as a Portable Float Map, told of the edge that fits, a face as an OpenEXR file.
const TELL: u8 = 0;

const MAP: u8 = 1;

const FIT: u8 = 2;

const EXR: u8 = 3;

// The bytes before the store: the kind; the edge and the face, low byte first.
const HEAD: usize = 9;

// One byte more than the largest question has: enough to tell that a store is too long.
pub const QUESTION: usize = HEAD + Place::STORE + 1;

// The values of the largest face.
const VALUES: usize = 12288;

// The most bytes of an answer: a header, and twelve for each pixel of that face.
pub const ANSWER: usize = 18 + 12 * 4096;

// ---- the question

// Four bytes, low byte first.
fn word_at(input: &[u8], at: usize) -> usize
    requires { at + 4 ≤ length input.now }
    ensures { result ≡ word_at input.now at }
{
    u32_to_usize(u32_at(input, at))
}

// ---- the lines

// A refusal that a record is why.
fn is_of_record(answer: u8) -> bool
    ensures { result ≡ of_record answer }
{
    (answer == Answer::BAD_FORMAT)
        | ((answer == Answer::SPARE_BYTE)
            | ((answer == Answer::BAD_PLACE)
                | ((answer == Answer::UNPLACED_RECORD)
                    | ((answer == Answer::PAST_EDGE) | (answer == Answer::TAKEN_PLACE)))))
}

// The faulty record, where one is.
fn put_faulty(out: &mut [u8], at: usize, fault: Fault) -> usize
    requires { at + 28 ≤ length out.old }
    ensures upper_bound { result ≤ at + 28 }
    ensures written { Written out.old at (faulty_part fault) result out.new }
{
    if !is_of_record(fault.answer) {
        return at;
    }
    put_count(out, at, b" record ", fault.faulty as u64)
}

fn put_fault(out: &mut [u8], fault: Fault) -> usize
    requires { 128 ≤ length out.old }
    ensures upper_bound { result ≤ 128 }
    ensures written { Written out.old 0 (fault_line fault) result out.new }
{
    let mut end = put_count(out, 0, b"store refused ", fault.answer as u64);
    end = put_faulty(out, end, fault);
    put(out, end, b"\n")
}

fn put_edge(out: &mut [u8], edge: usize, records: usize) -> usize
    requires { 128 ≤ length out.old }
    ensures upper_bound { result ≤ 128 }
    ensures written { Written out.old 0 (probe_line edge records) result out.new }
{
    let mut end = put_count(out, 0, b"probe edge ", edge as u64);
    end = put_count(out, end, b" records ", records as u64);
    put(out, end, b"\n")
}

// Whether a store is a probe.
fn put_check(store: &[u8], edge: usize, out: &mut [u8]) -> usize
    requires { 128 ≤ length out.old }
    ensures upper_bound { result ≤ 128 }
    ensures written { Written out.old 0 (check_output store.now edge) result out.new }
{
    let fault = probe_check(store, edge);
    if fault.answer != Answer::DONE {
        return put_fault(out, fault);
    }
    put_edge(out, edge, store.len() / Place::SIZE)
}

// ---- a face

// Which pixel of a picture is pixel j of its file.
fn pixel_up(side: usize, j: usize) -> usize
    requires { (1 ≤ side) × (side ≤ 64) × (j < side * side) }
    ensures { (result ≡ pixel_up side j) × (result < side * side) }
{
    (side - 1 - j / side) * side + j % side
}

// The pixels of a picture from the lowest row up, twelve bytes each, from `at` on; answers the place behind them.
fn put_pixels(values: &[u16], side: usize, out: &mut [u8], at: usize) -> usize
    requires le_side { (1 ≤ side) × (side ≤ 64) × (3 * (side * side) ≤ length values.now) × (at + 12 * (side * side) ≤ length out.old) }
    requires pixels_numbers { PixelsNumbers values.now (side * side) }
    ensures { Written out.old at (image_body values.now side) result out.new }
{
    let count = side * side;
    for j in 0..count {
        let k = 3 * pixel_up(side, j);
        put_rgb(
            Rgb::of(values[k], values[k + 1], values[k + 2]),
            out,
            at + 12 * j,
        );
    }
    at + 12 * count
}

// The file of a picture.
fn put_image(values: &[u16], side: usize, out: &mut [u8]) -> usize
    requires le_side { (1 ≤ side) × (side ≤ 64) × (3 * (side * side) ≤ length values.now) × (output_room ≤ length out.old) }
    requires pixels_numbers { PixelsNumbers values.now (side * side) }
    ensures upper_bound { result ≤ output_room }
    ensures written { Written out.old 0 (image_file values.now side) result out.new }
{
    let at = put_header(side as u32, side as u32, out);
    put_pixels(values, side, out, at)
}

// A face as a file, of one form or the other.
fn put_face(store: &[u8], edge: usize, face: usize, exr: bool, out: &mut [u8]) -> usize
    requires { output_room ≤ length out.old }
    ensures upper_bound { result ≤ output_room }
    ensures written { Written out.old 0 (face_output exr store.now edge face) result out.new }
{
    let mut values = [0u16; VALUES];
    let fault = probe_face(store, edge, face, &mut values);
    if fault.answer != Answer::DONE {
        return put_fault(out, fault);
    }
    if exr {
        return put_square(&values, edge, out);
    }
    put_image(&values, 4 * edge, out)
}

// What is written of a question, at the start of `out`; answers how many bytes it has.
pub fn put_probe(input: &[u8], out: &mut [u8]) -> usize
    requires { output_room ≤ length out.old }
    ensures upper_bound { result ≤ length out.new }
    ensures written { Written out.old 0 (probe_output input.now) result out.new }
{
    if input.len() < HEAD {
        return 0;
    }
    let kind = input[0];
    let edge = word_at(input, 1);
    let face = word_at(input, 5);
    let store = &input[HEAD..];
    if kind == TELL {
        return put_check(store, edge, out);
    }
    if kind == MAP {
        return put_face(store, edge, face, false, out);
    }
    if kind == FIT {
        return put_check(store, u32_to_usize(probe_edge(store)), out);
    }
    if kind == EXR {
        return put_face(store, edge, face, true, out);
    }
    0
}
