// The desk over the record that the host lends.
ghost use Rattle.line.specs.Desk.{first_counter, Call};
ghost use Rattle.transfer.specs.Entry.{default_budget};
ghost use Rattle.desk.specs.Record.{Good};
ghost use Rattle.desk.specs.Calls.{Fresh, Gives, GivesLent};
ghost use Rattle.lent.specs.Order.{order_from};
ghost use Rattle.lent.specs.Found.{found};

use desk::Desk;
use judge::Answer;
use linked::lending;

#[unsafe(no_mangle)]
pub extern "C" fn coe_desk_fresh(desk: &mut Desk)
    ensures { Fresh first_counter desk.new }
{
    lending::coe_desk_fresh(desk)
}

// With the default budget.
#[unsafe(no_mangle)]
pub extern "C" fn coe_desk_enter(
    desk: &mut Desk,
    seat: u8,
    kind: u8,
    index: u16,
    sub: u8,
    bytes: &[u8],
) -> Answer
    requires { Good desk.old }
    ensures { Gives desk.old (Call.enter seat (order_from kind index sub bytes.now default_budget)) (found result desk.new) }
{
    lending::coe_desk_enter(desk, seat, kind, index, sub, bytes)
}

#[unsafe(no_mangle)]
pub extern "C" fn coe_desk_enter_within(
    desk: &mut Desk,
    seat: u8,
    kind: u8,
    index: u16,
    sub: u8,
    bytes: &[u8],
    budget: u16,
) -> Answer
    requires { Good desk.old }
    ensures { Gives desk.old (Call.enter seat (order_from kind index sub bytes.now budget)) (found result desk.new) }
{
    lending::coe_desk_enter_within(desk, seat, kind, index, sub, bytes, budget)
}

#[unsafe(no_mangle)]
pub extern "C" fn coe_desk_send(desk: &mut Desk, seat: u8, frame: &mut [u8]) -> Answer
    requires { Good desk.old }
    ensures { GivesLent desk.old (Call.send seat frame.old) (found result desk.new) frame.old frame.new }
{
    lending::coe_desk_send(desk, seat, frame)
}

#[unsafe(no_mangle)]
pub extern "C" fn coe_desk_receive(
    desk: &mut Desk,
    seat: u8,
    reply: &[u8],
    buffer: &mut [u8],
) -> Answer
    requires { Good desk.old }
    ensures { GivesLent desk.old (Call.receive seat (reply.now, buffer.old)) (found result desk.new) buffer.old buffer.new }
{
    lending::coe_desk_receive(desk, seat, reply, buffer)
}

#[unsafe(no_mangle)]
pub extern "C" fn coe_desk_leave(desk: &mut Desk, seat: u8) -> Answer
    requires { Good desk.old }
    ensures { Gives desk.old (Call.leave seat) (found result desk.new) }
{
    lending::coe_desk_leave(desk, seat)
}
