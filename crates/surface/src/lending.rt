// The desk, on one record that is lent.
ghost use Rattle.desk.specs.Record.{Good};
ghost use Rattle.surface.specs.Calls.{Opens, Enters, EntersWithin, Sends, Receives, Leaves};

use desk::Desk;
use judge::Answer;
use linked::lending;

pub fn fresh(desk: &mut Desk)
    ensures { Opens desk.new }
{
    lending::coe_desk_fresh(desk)
}

pub fn enter(desk: &mut Desk, seat: u8, kind: u8, index: u16, sub: u8, bytes: &[u8]) -> Answer
    requires { Good desk.old }
    ensures { Enters desk.old seat kind index sub bytes.now result desk.new }
{
    lending::coe_desk_enter(desk, seat, kind, index, sub, bytes)
}

pub fn enter_within(
    desk: &mut Desk,
    seat: u8,
    kind: u8,
    index: u16,
    sub: u8,
    bytes: &[u8],
    budget: u16,
) -> Answer
    requires { Good desk.old }
    ensures { EntersWithin desk.old seat kind index sub bytes.now budget result desk.new }
{
    lending::coe_desk_enter_within(desk, seat, kind, index, sub, bytes, budget)
}

pub fn send(desk: &mut Desk, seat: u8, frame: &mut [u8]) -> Answer
    requires { Good desk.old }
    ensures { Sends desk.old seat frame.old result desk.new frame.new }
{
    lending::coe_desk_send(desk, seat, frame)
}

pub fn receive(desk: &mut Desk, seat: u8, reply: &[u8], buffer: &mut [u8]) -> Answer
    requires { Good desk.old }
    ensures { Receives desk.old seat reply.now buffer.old result desk.new buffer.new }
{
    lending::coe_desk_receive(desk, seat, reply, buffer)
}

pub fn leave(desk: &mut Desk, seat: u8) -> Answer
    requires { Good desk.old }
    ensures { Leaves desk.old seat result desk.new }
{
    lending::coe_desk_leave(desk, seat)
}
