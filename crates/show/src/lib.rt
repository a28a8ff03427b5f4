// How programs replay stored lines, and what they print: an answer, bytes, and a check of bytes that are too many to print.
#![tactic(auto)]

ghost use Rattle.std.specs.Prelude.{◌≡◌};
ghost use Rattle.show.specs.Check.{check_of};

use judge::Answer;
use std::io;
use std::io::Read;

const PIECE: u64 = 65536;

pub fn answer(rt: &impl Print, answer: Answer) -> io::Result<()> {
    let Answer {
        number,
        sub,
        index,
        code,
        length,
        data,
    } = answer;
    print!(rt; "{number:02x} {sub:02x} {index:04x} {code:08x} {length:08x} {data:010x}")
}

fn spelled(rt: &impl Print, s: &[u8], text: &mut [u8]) -> io::Result<()> {
    let n = order_text::encode(s, text);
    rt.write_all(&text[..n])
}

// As many of the bytes as have room in a buffer.
pub fn bytes(rt: &impl Print, s: &[u8]) -> io::Result<()> {
    let mut text = [0u8; 4096];
    spelled(rt, s, &mut text)
}

// A number that a change of any byte, or of their order, changes.
pub fn check(s: &[u8]) -> u32
    ensures { result ≡ check_of 0 s.now }
{
    s.iter()
        .fold(0, |sum, &byte| (31 * sum + u32::from(byte)) % 65521)
}

pub fn first(rt: &impl Print, s: &[u8], most: usize) -> io::Result<()> {
    bytes(rt, &s[..most.min(s.len())])
}

// The first `most` bytes, and the check of all.
pub fn looked(rt: &impl Print, s: &[u8], most: usize, width: usize) -> io::Result<()> {
    print!(rt; " ")?;
    first(rt, s, most)?;
    print!(rt; " {:0width$x}", check(s))
}

// A program that replays stored lines: what it does, and prints, for the bytes that a line says.
pub trait Program {
    fn turn(&mut self, rt: &impl Print, said: &[u8]) -> io::Result<()>;
}

// An empty line and a note are passed over.
fn line(
    rt: &impl Print,
    line: &[u8],
    space: &mut [u8],
    program: &mut impl Program,
) -> io::Result<()> {
    if line.is_empty() || line[0] == b'#' {
        return Ok(());
    }
    if let Some(n) = order_text::decode(line, space) {
        program.turn(rt, &space[..n])?;
        println!(rt)
    } else {
        println!(rt; "no such line")
    }
}

// A trait and not a closure: a `for` over `split` gets no proof in a function with a closure that is lent what a line says.
fn lines(
    rt: &impl Print,
    text: &[u8],
    space: &mut [u8],
    program: &mut impl Program,
) -> io::Result<()> {
    for said in text.split(|&c| c == b'\n') {
        line(rt, said, space, program)?;
    }
    Ok(())
}

// The input comes in pieces of whole lines, at most 64 of them.
pub fn replay(
    rt: &impl Print,
    input: &mut impl Read,
    text: &mut Vec<u8>,
    program: &mut impl Program,
) -> io::Result<()> {
    let mut space = [0u8; 2048];
    for _ in 0..64 {
        text.clear();
        input.by_ref().take(PIECE).read_to_end(text)?;
        lines(rt, text, &mut space, program)?;
    }
    Ok(())
}
