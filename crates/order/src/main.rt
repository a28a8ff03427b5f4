// The order program: an order file on standard input, the requests and the last number on standard output.
#![tactic(auto)]

use order_run::{Buffers, PIECE};
use std::io;

fn main(rt: HostRuntime) -> io::Result<()> {
    let mut piece = [0u8; PIECE];
    let mut buffers = Buffers::new();
    order_io::turns(&mut rt.stdin(), &mut rt.stdout(), &mut piece, &mut buffers)?;
    Ok(())
}
