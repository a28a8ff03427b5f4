// The order program's input and output: what is read goes to order_run, and what that prints is written.
#![tactic(auto)]

ghost use Rattle.std.specs.Prelude.{◌≡◌, take, IfOk, OnErr};
ghost use Rattle.order_run.specs.Run.{Going};
ghost use Rattle.order_run.specs.Feed.{st_in, after, finished};
ghost use Rattle.order_io.specs.Shown.{Shows, Leaves};

use order_run::{Buffers, Fed, Run};
use std::io;
use std::io::{Read, Write};

// Writes what a piece prints, and gives back the run after it.
fn print(output: &mut impl Write, fed: Fed, out: &[u8]) -> io::Result<Run>
    ensures { IfOk result (λ r. r ≡ fed.run) }
{
    if let Some(text) = out.get(..fed.printed) {
        output.write_all(text)?;
    }
    Ok(fed.run)
}

// A piece that was read. It is fed before anything is written, so that where a write fails the lent buffers are as it left them.
pub fn fed(output: &mut impl Write, run: Run, text: &[u8], buffers: &mut Buffers) -> io::Result<Run>
    ensures ok { IfOk result (λ r. Shows (after (st_in run buffers.old) (take 4096 text.now)) r buffers.new.frame buffers.new.«data» buffers.old.out buffers.new.out) }
    ensures err { OnErr result (Leaves (after (st_in run buffers.old) (take 4096 text.now)) buffers.new.frame buffers.new.«data» buffers.old.out buffers.new.out) }
{
    let fed = run.feed(text, buffers);
    print(output, fed, &buffers.out)
}

// The end of the input.
pub fn ended(output: &mut impl Write, run: Run, buffers: &mut Buffers) -> io::Result<Run>
    ensures ok { IfOk result (λ r. Shows (finished (st_in run buffers.old)) r buffers.new.frame buffers.new.«data» buffers.old.out buffers.new.out) }
    ensures err { OnErr result (Leaves (finished (st_in run buffers.old)) buffers.new.frame buffers.new.«data» buffers.old.out buffers.new.out) }
{
    let fed = run.finish(buffers);
    print(output, fed, &buffers.out)
}

// Reads once, and does what came.
fn turn(
    input: &mut impl Read,
    output: &mut impl Write,
    run: Run,
    piece: &mut [u8],
    buffers: &mut Buffers,
) -> io::Result<Run>
    ensures { IfOk result Going }
{
    let n = input.read(piece)?;
    if n == 0 {
        return ended(output, run, buffers);
    }
    fed(output, run, &piece[..n], buffers)
}

// A proved loop has to end, and nothing says that the input does. So the loop counts its turns, up to a number that no run
// uses up: each turn reads a character at least, and a run takes an entry and at most as many replies as the default budget has,
// each a line of at most 2,972 characters and a line end.
pub fn turns(
    input: &mut impl Read,
    output: &mut impl Write,
    piece: &mut [u8],
    buffers: &mut Buffers,
) -> io::Result<Run>
    ensures { IfOk result Going }
{
    let mut run = Run::start();
    for _ in 0..u64::MAX {
        run = turn(input, output, run, piece, buffers)?;
        if run.is_over() {
            break;
        }
    }
    Ok(run)
}
