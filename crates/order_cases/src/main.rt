// Replays stored order files: their texts stand one after another on standard input, each followed by `=`, and what each prints is
// followed by a line `=`. tools/cases/orders writes both files. A test program: its lines are compared.
#![tactic(auto)]

ghost use Rattle.std.specs.Prelude.{IfOk};
ghost use Rattle.order_run.specs.Run.{Going};

use order_run::{Buffers, Run};
use std::io;
use std::io::{Read, Write};

const PIECE: u64 = 4096;

// The order ends, and a new run begins. What the order left in the buffers stays there, and is never printed.
fn renewed(output: &mut impl Write, run: Run, buffers: &mut Buffers) -> io::Result<Run>
    ensures { IfOk result Going }
{
    order_io::ended(output, run, buffers)?;
    output.write_all(b"=\n")?;
    Ok(Run::start())
}

fn orders(
    output: &mut impl Write,
    first: Run,
    text: &[u8],
    buffers: &mut Buffers,
) -> io::Result<Run>
    ensures { IfOk result Going }
{
    let mut run = first;
    let mut rest = text;
    // a `for` over `split` was tried, and gets no proof: the check makes no type of its iterator in a function over `impl Write`
    while let Some(end) = rest.iter().position(|&c| c == b'=') {
        run = order_io::fed(output, run, &rest[..end], buffers)?;
        run = renewed(output, run, buffers)?;
        rest = &rest[end + 1..];
    }
    order_io::fed(output, run, rest, buffers)
}

// The input is at most 1,024 pieces.
fn pieces(
    input: &mut impl Read,
    output: &mut impl Write,
    piece: &mut Vec<u8>,
    buffers: &mut Buffers,
) -> io::Result<()> {
    let mut run = Run::start();
    for _ in 0..1024 {
        piece.clear();
        input.by_ref().take(PIECE).read_to_end(piece)?;
        // behind the end of the input nothing is fed: `feed` makes its table of digits at each call
        if !piece.is_empty() {
            run = orders(output, run, piece, buffers)?;
        }
    }
    Ok(())
}

fn main(rt: HostRuntime) -> io::Result<()> {
    let mut piece = Vec::new(rt.alloc());
    let mut buffers = Buffers::new();
    pieces(&mut rt.stdin(), &mut rt.stdout(), &mut piece, &mut buffers)
}
