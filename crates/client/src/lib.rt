// A caller of the desk: one order from entry to leave, on lent buffers. It has its contract from the calls' contracts alone, so it
// shows that they chain, and that the run of the stand, of which demand 3 speaks, is what a caller sees.
#![tactic(auto)]

ghost use Rattle.client.specs.RunSeen.{RunSeen};

use desk::Desk;
use judge::Answer;
use transfer::Order;

// The answers in the order of the calls.
#[repr(C)]
#[derive(Clone, Copy, Debug, PartialEq, Eq)]
pub struct Seen {
    pub entered: Answer,
    pub sent: Answer,
    pub received: Answer,
    pub left: Answer,
}

pub fn run(seat: u8, order: Order, frame: &mut [u8], reply: &[u8], buffer: &mut [u8]) -> Seen
    ensures { RunSeen seat order frame.old reply.now buffer.old result frame.new buffer.new }
{
    let entered = Desk::fresh().enter(seat, order);
    let sent = entered.desk.send(seat, frame);
    let received = sent.desk.receive(seat, reply, buffer);
    let left = received.desk.leave(seat);
    Seen {
        entered: entered.answer,
        sent: sent.answer,
        received: received.answer,
        left: left.answer,
    }
}
