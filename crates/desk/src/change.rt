// What a call changes in the record, small enough to be handed about: a host's record is changed in place, and never copied whole.
ghost use Rattle.std.specs.Prelude.{◌≡◌, ◌<◌};
ghost use Rattle.desk.specs.Change.{Within, changed_by, joins_by, heads_by, closes_at, moves_on};

use crate::record::{Slot, blank};
use crate::{Desk, REQUEST_DUE};
use judge::Answer;
use transfer::Transfer;

// The places from `first` up to `last` each take what stands behind them, then `slot` comes to the place `at`; the line's length and
// the counter of the next frame afterwards; and what the call answers. `Within` is no ghost field: with it `change_of`, which builds the
// change of any record, would carry a proof for each place, and its promise would no longer be one equality.
#[derive(Clone, Copy, Debug, PartialEq, Eq)]
pub struct Change {
    pub answer: Answer,
    pub first: usize,
    pub last: usize,
    pub at: usize,
    pub slot: Slot,
    pub waiting: usize,
    pub counter: u8,
}

impl Change {
    // `changed_by` where the record lies.
    pub fn apply(self, desk: &mut Desk) -> Answer
        requires { Within self }
        ensures { (result ≡ self.answer) × (desk.new ≡ changed_by self desk.old) }
    {
        desk.line
            .copy_within(self.first + 1..self.last + 1, self.first);
        desk.line[self.at] = self.slot;
        desk.waiting = self.waiting;
        desk.counter = self.counter;
        self.answer
    }
}

// What the calls that are not refused change.
impl Desk {
    pub(crate) fn joins(self, seat: u8, transfer: Transfer) -> Change
        requires { self.waiting < 8 }
        ensures { result ≡ joins_by self seat transfer }
    {
        let n = self.waiting;
        Change {
            answer: judge::plain(REQUEST_DUE),
            first: 0,
            last: 0,
            at: n,
            slot: Slot { seat, transfer },
            waiting: n + 1,
            counter: self.counter,
        }
    }

    // The head's transfer goes on.
    pub(crate) fn heads(self, answer: Answer, seat: u8, transfer: Transfer, counter: u8) -> Change
        ensures { result ≡ heads_by answer self seat transfer counter }
    {
        Change {
            answer,
            first: 0,
            last: 0,
            at: 0,
            slot: Slot { seat, transfer },
            waiting: self.waiting,
            counter,
        }
    }

    // Without what stands at a place: the line closes up, and a blank stands behind it.
    pub(crate) fn closes(self, answer: Answer, place: usize) -> Change
        requires { place < self.waiting }
        ensures { result ≡ closes_at answer self place }
    {
        let last = self.waiting - 1;
        Change {
            answer,
            first: place,
            last,
            at: last,
            slot: blank(),
            waiting: last,
            counter: self.counter,
        }
    }

    // The head stays while its transfer goes on, and its seat is free when it is over.
    pub(crate) fn moves_on(self, answer: Answer, seat: u8, next: Option<Transfer>) -> Change
        requires { 0 < self.waiting }
        ensures { result ≡ moves_on answer self seat next }
    {
        match next {
            Some(transfer) => self.heads(answer, seat, transfer, self.counter),
            None => self.closes(answer, 0),
        }
    }
}
