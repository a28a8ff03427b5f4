// The desk: up to eight transfers that take turns at one mailbox, as a record by value and the calls that give it back. Each call is
// one step of line's desk with the CoE machine. Here: the record and the calls, each with what it changes; in the module record the
// slots, in the module change what a change is.
#![tactic(auto)]

ghost use Rattle.std.specs.Prelude.{◌≡◌, IfOk};
ghost use Rattle.line.specs.Desk.{first_counter, Call};
ghost use Rattle.desk.specs.Record.{Good, counter_from};
ghost use Rattle.desk.specs.Calls.{Fresh, Gives, GivesLent};
ghost use Rattle.desk.specs.Change.{Within, called_by, Changes, ChangesLent};

use change::Change;
use judge::Answer;
use record::Slot;
use transfer::Order;
use wire::refusal::Refusal;

pub mod change;
pub mod record;

// "A fresh desk sends 1"
pub const FIRST_COUNTER: u8 = 1;

// Of "Numbers the desk gives back" those of calls that are not refused: "request due", "reply due", "left".
pub(crate) const REQUEST_DUE: u8 = 0x01;

pub(crate) const REPLY_DUE: u8 = 0x02;

pub(crate) const LEFT: u8 = 0x03;

// The line in the first `waiting` slots, by order of entry, and blanks behind it; the counter of the next frame. `Good` is no invariant of
// this type but a clause of each call: C lends the record (linked::lending), and `coe_desk_fresh` takes one that holds anything.
#[repr(C)]
#[derive(Clone, Copy, Debug, PartialEq, Eq)]
pub struct Desk {
    pub line: [Slot; 8],
    pub waiting: usize,
    pub counter: u8,
}

// What a call gives back.
#[repr(C)]
#[derive(Clone, Copy, Debug, PartialEq, Eq)]
pub struct Called {
    pub answer: Answer,
    pub desk: Desk,
}

impl Desk {
    // Nobody in the line; the next frame has that counter, or the first one where it is not 1 to 7.
    pub fn fresh_at(counter: u8) -> Desk
        ensures { Fresh (counter_from counter) result }
    {
        if !(1..=7).contains(&counter) {
            return Desk::fresh();
        }
        Desk::empty(counter)
    }

    #[tactic(auto, using(crate::proofs::Kept::fresh_is))]
    pub fn fresh() -> Desk
        ensures { Fresh first_counter result }
    {
        Desk::empty(FIRST_COUNTER)
    }

    pub fn enter(self, seat: u8, order: Order) -> Called
        requires { Good self }
        ensures { Gives self (Call.enter seat order) result }
    {
        self.called(self.entering(seat, order))
    }

    pub fn send(self, seat: u8, frame: &mut [u8]) -> Called
        requires { Good self }
        ensures { GivesLent self (Call.send seat frame.old) result frame.old frame.new }
    {
        let decided = self.sending(seat, frame);
        self.called(decided)
    }

    pub fn receive(self, seat: u8, reply: &[u8], buffer: &mut [u8]) -> Called
        requires { Good self }
        ensures { GivesLent self (Call.receive seat (reply.now, buffer.old)) result buffer.old buffer.new }
    {
        let decided = self.receiving(seat, reply, buffer);
        self.called(decided)
    }

    pub fn leave(self, seat: u8) -> Called
        requires { Good self }
        ensures { Gives self (Call.leave seat) result }
    {
        self.called(self.leaving(seat))
    }

    // What `enter` changes.
    pub fn entering(self, seat: u8, order: Order) -> Result<Change, Refusal>
        requires { Good self }
        ensures { Changes self (Call.enter seat order) result }
    {
        if 7 < seat {
            return Err(Refusal::NoSuchSeat);
        }
        if self.place(seat).is_some() {
            return Err(Refusal::SeatTaken);
        }
        let transfer = order.begin()?;
        Ok(self.joins(seat, transfer))
    }

    // What `send` changes besides the frame.
    pub fn sending(self, seat: u8, frame: &mut [u8]) -> Result<Change, Refusal>
        requires { Good self }
        ensures { ChangesLent self (Call.send seat frame.old) result frame.old frame.new }
    {
        let head = self.head(seat)?;
        let sent = head.send(self.counter, frame)?;
        Ok(self.heads(
            judge::plain(REPLY_DUE),
            seat,
            sent,
            line::following(self.counter),
        ))
    }

    // What `receive` changes besides the data buffer.
    pub fn receiving(self, seat: u8, reply: &[u8], buffer: &mut [u8]) -> Result<Change, Refusal>
        requires { Good self }
        ensures { ChangesLent self (Call.receive seat (reply.now, buffer.old)) result buffer.old buffer.new }
    {
        let head = self.head(seat)?;
        let (answer, next) = head.receive(reply, buffer)?;
        Ok(self.moves_on(answer, seat, next))
    }

    // What `leave` changes.
    pub fn leaving(self, seat: u8) -> Result<Change, Refusal>
        requires { Good self }
        ensures { Changes self (Call.leave seat) result }
    {
        if 7 < seat {
            return Err(Refusal::NoSuchSeat);
        }
        let Some(at) = self.place(seat) else {
            return Err(Refusal::SeatEmpty);
        };
        Ok(self.closes(judge::plain(LEFT), at))
    }

    // `called_by` where the record lies: a refusal leaves it as it is.
    pub fn settle(&mut self, decided: Result<Change, Refusal>) -> Answer
        requires { IfOk decided Within }
        ensures { (result ≡ (called_by decided self.old).answer) × (self.new ≡ (called_by decided self.old).desk) }
    {
        let told = match decided {
            Ok(change) => change.apply(self),
            Err(refusal) => judge::plain(refusal.number()),
        };
        // Field by field: of an answer that is handed on whole the compiler keeps the bytes behind the number in memory, and copies them at each
        // return.
        Answer {
            number: told.number,
            sub: told.sub,
            index: told.index,
            code: told.code,
            length: told.length,
            data: told.data,
        }
    }

    // `called_by` by value.
    pub fn called(self, decided: Result<Change, Refusal>) -> Called
        requires { IfOk decided Within }
        ensures { result ≡ called_by decided self }
    {
        let mut desk = self;
        let answer = desk.settle(decided);
        Called { answer, desk }
    }
}
