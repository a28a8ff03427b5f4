// The record's slots: what an empty one holds, and whose slot is whose.
ghost use Rattle.std.specs.Prelude.{◌≡◌};
ghost use Rattle.std.specs.List.{position};
ghost use Rattle.line.specs.Line.{head};
ghost use Rattle.transfer.specs.Coe.{ruling_of};
ghost use Rattle.desk.specs.Record.{Good, view_of, empty_at, blank_of, is_at, place_of};

use crate::Desk;
use transfer::{Order, Transfer};
use wire::refusal::Refusal;

// A seat and its transfer.
#[repr(C)]
#[derive(Clone, Copy, Debug, PartialEq, Eq)]
pub struct Slot {
    pub seat: u8,
    pub transfer: Transfer,
}

// Not all zeros: those the compiler would first write to memory of its own.
pub(crate) fn blank() -> Slot
    ensures { result ≡ blank_of }
{
    let order = Order {
        kind: 0,
        sub: 0,
        index: 0xffff,
        value: 0,
        len: 0,
        budget: 0,
    };
    let transfer = Transfer {
        order,
        stage: 0xff,
        toggle: 0,
        left: 0,
        sum: 0,
    };
    Slot { seat: 0, transfer }
}

impl Desk {
    #[tactic(auto, unfolding(crate::specs::Record::desk_of))]
    pub(crate) fn empty(counter: u8) -> Desk
        ensures { result ≡ empty_at counter }
    {
        Desk {
            line: [blank(); 8],
            waiting: 0,
            counter,
        }
    }

    // The blanks behind the line are looked at too, so that a slot takes one test, and the bound is the constant 8: the compiler then
    // writes the tests out, and copies the record once less.
    fn first_slot(&self, seat: u8) -> Option<usize>
        ensures { result ≡ position (is_at seat) self.now.line }
    {
        self.line.iter().position(|slot| seat == slot.seat)
    }

    // The place of a seat in the line, 0 at the head.
    pub(crate) fn place(self, seat: u8) -> Option<usize>
        ensures { result ≡ place_of seat (view_of self).line }
    {
        match self.first_slot(seat) {
            Some(at) if at < self.waiting => Some(at),
            _ => None,
        }
    }

    // The transfer at the head, where it is the seat's: 10, 12, 13.
    pub(crate) fn head(self, seat: u8) -> Result<Transfer, Refusal>
        requires { Good self }
        ensures { ruling_of result ≡ head seat (view_of self).line }
    {
        if 7 < seat {
            return Err(Refusal::NoSuchSeat);
        }
        match self.place(seat) {
            None => Err(Refusal::SeatEmpty),
            Some(0) => Ok(self.line[0].transfer),
            Some(_) => Err(Refusal::NotAtHead),
        }
    }
}
