// The calls: a byte that names the call, the seat, and the call's arguments; a lent buffer is a part of the memory, by its place
// and its length, as far as the memory reaches.
ghost use Rattle.desk.specs.Record.{Good};
ghost use Rattle.runs.specs.Props.{good_props};

use desk::{Called, Desk};
use std::io;
use transfer::Order;

// The desk as it stands between two calls.
#[derive(Clone, Copy)]
pub(crate) struct Standing {
    pub(crate) desk: Desk,
    ghost good: { Good desk } by { Prim.hlevel good_props },
}

pub(crate) fn first() -> Standing {
    Standing {
        desk: Desk::fresh(),
    }
}

// The answer, the counter of the next frame, and how many wait.
fn told(rt: &impl Print, called: Called) -> io::Result<Standing>
    requires { Good called.desk }
{
    let desk = called.desk;
    show::answer(rt, called.answer)?;
    print!(rt; " {:02x} {:02x}", desk.counter, desk.waiting)?;
    Ok(Standing { desk })
}

pub(crate) fn fresh(rt: &impl Print, call: &[u8]) -> io::Result<Standing> {
    let desk = Desk::fresh_at(wire::byte(call, 1));
    print!(rt; "fresh {:02x} {:02x}", desk.counter, desk.waiting)?;
    Ok(Standing { desk })
}

fn order(call: &[u8]) -> Order {
    Order {
        kind: wire::byte(call, 2),
        sub: wire::byte(call, 3),
        index: wire::word_at(call, 4),
        value: wire::long_at(call, 6),
        len: wire::byte(call, 10),
        budget: wire::word_at(call, 11),
    }
}

pub(crate) fn enter(rt: &impl Print, before: Standing, call: &[u8]) -> io::Result<Standing> {
    told(rt, before.desk.enter(wire::byte(call, 1), order(call)))
}

pub(crate) fn leave(rt: &impl Print, before: Standing, call: &[u8]) -> io::Result<Standing> {
    told(rt, before.desk.leave(wire::byte(call, 1)))
}

// The buffer that a call lends, by its place in the memory and its length.
fn lent<'a>(call: &[u8], memory: &'a mut [u8]) -> &'a mut [u8] {
    let from = (wire::long_at(call, 2) as usize).min(memory.len());
    let behind = &mut memory[from..];
    let len = (wire::long_at(call, 6) as usize).min(behind.len());
    &mut behind[..len]
}

pub(crate) fn send(
    rt: &impl Print,
    before: Standing,
    call: &[u8],
    memory: &mut [u8],
) -> io::Result<Standing> {
    let buffer = lent(call, memory);
    let after = told(rt, before.desk.send(wire::byte(call, 1), buffer))?;
    print!(rt; " ")?;
    show::bytes(rt, buffer)?;
    Ok(after)
}

pub(crate) fn receive(
    rt: &impl Print,
    before: Standing,
    call: &[u8],
    memory: &mut [u8],
) -> io::Result<Standing> {
    let buffer = lent(call, memory);
    let reply = &call[call.len().min(10)..];
    let after = told(rt, before.desk.receive(wire::byte(call, 1), reply, buffer))?;
    show::looked(rt, buffer, 32, 4)?;
    Ok(after)
}

// No call of the desk: the host writes into its memory.
pub(crate) fn lay(rt: &impl Print, call: &[u8], memory: &mut [u8]) -> io::Result<()> {
    wire::store_chunk(call, 5, call.len(), memory, wire::long_at(call, 1) as usize);
    print!(rt; "laid")
}

// No call of the desk: the whole memory is looked at.
pub(crate) fn look(rt: &impl Print, memory: &[u8]) -> io::Result<()> {
    print!(rt; "memory")?;
    show::looked(rt, memory, 32, 4)
}
