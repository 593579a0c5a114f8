// What the programs share: an input that is read whole or not at all, and a text that is written in one go.
//
// A program over a store has no status of its own. One that could not read its input writes nothing to standard output and a line to standard
// error; one that could not write its text tells that too. The text of a store always ends with its closing line, so that a caller sees
// from the text itself whether it is whole.
#![tactic(auto)]

ghost use Rattle.std.specs.Prelude.{◌≡◌, List, ℕ, ◌^◌, ◌≤◌, ◌<◌, length, take};
ghost use Rattle.std.specs.Io.{ReadsAtMost};
ghost use Rattle.text.specs.Text.{Written};
ghost use Rattle.run_streams.specs.Input.{Fits};
ghost use Rattle.run_streams.specs.Output.{Outgoing};

use std::io;
use std::io::{Read, Stderr};
use store_records::Record;

// The bytes of an input that ended or filled its buffer; or a read of it failed.
#[derive(Clone, Copy)]
pub enum Input {
    Whole(usize),
    Failed,
}

// The room for a store that is read, with one byte more than a store may have: enough to tell that one is too long.
pub const STORE_INPUT: usize = Record::STORE + 1;

// Reads until the input ends or the buffer is full, and answers how many bytes that is. A read that failed is not the end of the input:
// its error is the answer, and of the buffer no more is known than its length.
pub fn read_full(reader: &mut impl Read, buffer: &mut [u8]) -> io::Result<usize>
    ensures { ReadsAtMost result buffer.new }
{
    let mut size: usize = 0;
    while size < buffer.len() {
        let more = reader.read(&mut buffer[size..])?;
        if more == 0 {
            break;
        }
        size += more;
    }
    Ok(size)
}

// Reads standard input until it ends or the buffer is full. A read that fails is not the end of the input.
pub fn read_input(rt: &(impl io::Input + Eprint), buffer: &mut [u8]) -> Input
    ensures { Fits result (length buffer.new) }
{
    match read_full(&mut rt.reader(), buffer) {
        Ok(size) => Input::Whole(size),
        Err(_) => {
            let _ = rt.eprintln("standard input could not be read");
            Input::Failed
        }
    }
}

// The first bytes of a buffer; all of it where it has no more.
pub fn first_bytes(buffer: &[u8], size: usize) -> &[u8]
    ensures { result.now ≡ take size buffer.now }
{
    if size < buffer.len() {
        return &buffer[..size];
    }
    buffer
}

// Writes the first bytes of a text.
fn write_first(stream: &impl Print, text: &[u8], end: usize) -> io::Result<()>
    requires { end ≤ length text.now }
{
    stream.write_all(&text[..end])
}

// The same, to standard error.
pub fn tell(stderr: &Stderr, text: &[u8], end: usize) -> io::Result<()>
    requires { end ≤ length text.now }
{
    write_first(stderr, text, end)
}

// Writes the first bytes of a text to standard output, and tells where it could not.
pub fn write_text(rt: &(impl Print + Eprint), text: &[u8], end: usize)
    requires { end ≤ length text.now }
{
    if write_first(rt, text, end).is_err() {
        let _ = rt.eprintln("standard output could not be written");
    }
}

// A program that writes what its definition says of its input: it reads into INPUT bytes, and its answer has at most OUTPUT.
pub trait Program<const INPUT: usize, const OUTPUT: usize> {
    // What goes out, of what came in.
    ghost definition: { List ℕ → List ℕ };

    // The most bytes of an input that is taken. A longer one is refused, whatever is left of it.
    ghost largest: { ℕ };

    // The answer to an input, at the start of `out`; its result is how many bytes that is.
    fn put(input: &[u8], out: &mut [u8]) -> usize
        requires { length out.old ≡ OUTPUT }
        ensures upper_bound { result ≤ length out.new }
        ensures written { Written out.old 0 (definition input.now) result out.new };
}

// Writes the answer to the first bytes of a buffer: what goes out is the definition of what was read.
fn write_answer<const INPUT: usize, const OUTPUT: usize, P: Program<INPUT, OUTPUT>>(
    rt: &(impl Print + Eprint),
    input: &[u8],
    size: usize,
    out: &[u8],
    end: usize,
)
    requires { Outgoing P.definition P.largest input.now size out.now end }
{
    write_text(rt, out, end);
}

// Runs a program: reads standard input into a buffer with more room than its largest input, and writes the answer to standard output. Where
// the input could not be read, all that is written is a line on standard error.
pub fn run<const INPUT: usize, const OUTPUT: usize, P: Program<INPUT, OUTPUT>>(
    rt: &(impl io::Input + Print + Eprint),
)
    requires in_memory { (INPUT < 2 ^ 63) × (OUTPUT < 2 ^ 63) }
    requires room { P.largest < INPUT }
{
    let mut input = [0u8; INPUT];
    let Input::Whole(size) = read_input(rt, &mut input) else {
        return;
    };
    let mut out = [0u8; OUTPUT];
    let end = P::put(first_bytes(&input, size), &mut out);
    write_answer::<INPUT, OUTPUT, P>(rt, &input, size, &out, end);
}
