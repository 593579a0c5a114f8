// Standard input is a DDS file. Six bytes go out: the number, the format (0 unsigned, 1 signed, 2 BC7, 3 BC7 in sRGB), the width and the
// height, two bytes each, low byte first; zeros beside a refusal's number. With the word --first-level the file may have mip levels.
//
// With the word --make standard input is a wish, nine bytes, and then blocks. The wish is a format, a width and a height, four bytes each, low
// byte first. The number goes out, and where it is 0 the 148 bytes that stand before the blocks.
//
// Only the first bytes of the input are held, the others are counted: a file may have 22 MB, and a program has its stack alone.
#![tactic(auto)]

ghost use Rattle.std.specs.Prelude.{◌≡◌, ◌≤◌, IfOk};
ghost use Rattle.bcn_spec.specs.Bits.{size_limit};
ghost use Rattle.run_dds.specs.Told.{report_of, told_of, one_told, first_told};

use bcn_spec::Answer;
use dds::DdsRead;
use raw_bytes::u32_at;
use run_streams::read_full;
use std::env::Env;
use std::io;
use std::io::Read;

// The most bytes that blocks have, those of 13 levels.
const MOST: usize = 22369648;

// The most letters of a word.
const WORD: usize = 13;

// The bytes of a wish.
const WISH: usize = 9;

fn report_bytes(read: DdsRead) -> [u8; 6]
    requires { (read.width ≤ size_limit) × (read.height ≤ size_limit) }
    ensures { result ≡ report_of read }
{
    let width = (read.width as u16).to_le_bytes();
    let height = (read.height as u16).to_le_bytes();
    [
        read.answer,
        read.format,
        width[0],
        width[1],
        height[0],
        height[1],
    ]
}

// A file that was read as BC6H and as BC7.
fn told(bc6h: DdsRead, bc7: DdsRead) -> DdsRead
    requires { bc7.format ≤ 1 }
    ensures { result ≡ told_of bc6h bc7 }
{
    if bc6h.answer != Answer::FOREIGN_HEADER {
        return bc6h;
    }
    if bc7.answer != Answer::DONE {
        return bc7;
    }
    DdsRead {
        answer: Answer::DONE,
        width: bc7.width,
        height: bc7.height,
        format: bc7.format + 2,
    }
}

// What is written of a file that begins with `head` and has `size` bytes.
fn report(head: &[u8], size: usize) -> [u8; 6]
    ensures { result ≡ report_of (one_told head.now size) }
{
    report_bytes(told(dds::dds_sized(head, size), dds::bc7_dds_sized(head, size)))
}

// The same where the file may have mip levels.
fn report_first(head: &[u8], size: usize) -> [u8; 6]
    ensures { result ≡ report_of (first_told head.now size) }
{
    report_bytes(told(
        dds::dds_first_sized(head, size),
        dds::bc7_dds_first_sized(head, size),
    ))
}

fn read_some(reader: &mut impl Read) -> io::Result<usize>
    ensures { IfOk result (λ n. n ≤ 65536) }
{
    let mut buffer = [0u8; 65536];
    read_full(reader, &mut buffer)
}

// How many bytes of the input are left; of more than blocks may have it is enough to know that they are more.
fn count_rest(reader: &mut impl Read) -> io::Result<usize>
    ensures { IfOk result (λ n. n ≤ 22435184) }
{
    let mut count: usize = 0;
    while count <= MOST {
        let got = read_some(reader)?;
        if got == 0 {
            break;
        }
        count += got;
    }
    Ok(count)
}

fn tell_file(rt: &(impl Input + Print), first_level: bool) -> io::Result<()> {
    let mut reader = rt.reader();
    let mut head = [0u8; DdsRead::HEADER];
    let got = read_full(&mut reader, &mut head)?;
    let size = got + count_rest(&mut reader)?;
    if first_level {
        rt.write_all(&report_first(&head[..got], size))
    } else {
        rt.write_all(&report(&head[..got], size))
    }
}

// The number, and where it is 0 the header.
fn grant_wish(rt: &impl Print, format: u8, width: u32, height: u32, size: usize) -> io::Result<()> {
    let mut header = [0u8; DdsRead::HEADER];
    let answer = [dds::dds_header(size, format, width, height, &mut header)];
    rt.write_all(&answer)?;
    if answer[0] == Answer::DONE {
        rt.write_all(&header)?;
    }
    Ok(())
}

// A wish that is not whole gets no answer.
fn make_file(rt: &(impl Input + Print)) -> io::Result<()> {
    let mut reader = rt.reader();
    let mut wish = [0u8; WISH];
    let got = read_full(&mut reader, &mut wish)?;
    if got != WISH {
        return Ok(());
    }
    let size = count_rest(&mut reader)?;
    grant_wish(rt, wish[0], u32_at(&wish, 1), u32_at(&wish, 5), size)
}

// Whether the program's first word is this one.
fn is_word(rt: &impl Env, expected: &[u8]) -> bool {
    let mut word = [0u8; WORD];
    let Ok(size) = rt.arg(1, &mut word) else {
        return false;
    };
    &word[..size] == expected
}

fn main(rt: HostRuntime) -> io::Result<()> {
    if is_word(&rt, b"--make") {
        make_file(&rt)
    } else {
        tell_file(&rt, is_word(&rt, b"--first-level"))
    }
}
