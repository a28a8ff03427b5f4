// The desk as a host has it: one record, lent to every call. Each call reads it, asks the desk by value what changes, and makes that
// change in the record.
#![tactic(auto)]

ghost use Rattle.line.specs.Desk.{first_counter, Call};
ghost use Rattle.desk.specs.Record.{Good};
ghost use Rattle.desk.specs.Calls.{Fresh, Gives, GivesLent};
ghost use Rattle.desk.specs.Change.{Changes};
ghost use Rattle.lent.specs.Order.{order_from};
ghost use Rattle.lent.specs.Found.{found};

use desk::Desk;
use desk::change::Change;
use judge::Answer;
use order::order_from;
use wire::refusal::Refusal;

pub mod order;

fn entering(
    desk: Desk,
    seat: u8,
    kind: u8,
    index: u16,
    sub: u8,
    bytes: &[u8],
    budget: u16,
) -> Result<Change, Refusal>
    requires { Good desk }
    ensures { Changes desk (Call.enter seat (order_from kind index sub bytes.now budget)) result }
{
    let order = order_from(kind, index, sub, bytes, budget);
    desk.entering(seat, order)
}

// An order's kind, index, sub-index, data and budget stay apart, as `coe_desk_enter_within` of the header has them and linked hands them on.
pub fn enter(
    desk: &mut Desk,
    seat: u8,
    kind: u8,
    index: u16,
    sub: u8,
    bytes: &[u8],
    budget: u16,
) -> Answer
    requires { Good desk.old }
    ensures { Gives desk.old (Call.enter seat (order_from kind index sub bytes.now budget)) (found result desk.new) }
{
    let decided = entering(*desk, seat, kind, index, sub, bytes, budget);
    desk.settle(decided)
}

pub fn send(desk: &mut Desk, seat: u8, frame: &mut [u8]) -> Answer
    requires { Good desk.old }
    ensures { GivesLent desk.old (Call.send seat frame.old) (found result desk.new) frame.old frame.new }
{
    let decided = Desk::sending(*desk, seat, frame);
    desk.settle(decided)
}

pub fn receive(desk: &mut Desk, seat: u8, reply: &[u8], buffer: &mut [u8]) -> Answer
    requires { Good desk.old }
    ensures { GivesLent desk.old (Call.receive seat (reply.now, buffer.old)) (found result desk.new) buffer.old buffer.new }
{
    let decided = Desk::receiving(*desk, seat, reply, buffer);
    desk.settle(decided)
}

pub fn leave(desk: &mut Desk, seat: u8) -> Answer
    requires { Good desk.old }
    ensures { Gives desk.old (Call.leave seat) (found result desk.new) }
{
    let decided = Desk::leaving(*desk, seat);
    desk.settle(decided)
}

// Whatever stood in the record, it is a fresh desk.
pub fn fresh(desk: &mut Desk)
    ensures { Fresh first_counter desk.new }
{
    *desk = Desk::fresh();
}
