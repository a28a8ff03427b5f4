// Why a call or a reply is refused: document 01, "Numbers the desk gives back", under the names that the host crate has. An emergency and
// an abort, 21 and 22, stand in a verdict of their own, with their values.
ghost use Rattle.std.specs.Prelude.{◌≡◌};
ghost use Rattle.wire.specs.Refusal.{number_of};

use std::error::Error;
use std::fmt;

#[derive(Clone, Copy, Debug, PartialEq, Eq)]
pub enum Refusal {
    NoSuchSeat = 0x10,
    SeatTaken = 0x11,
    SeatEmpty = 0x12,
    NotAtHead = 0x13,
    OtherDue = 0x14,
    BadOrder = 0x15,
    BufferLength = 0x16,
    Undecodable = 0x20,
    WrongReply = 0x23,
    TooLarge = 0x24,
    MissingBytes = 0x25,
    LengthField = 0x26,
    BudgetSpent = 0x27,
}

impl Refusal {
    // The document's number.
    pub fn number(self) -> u8
        ensures { result ≡ number_of self }
    {
        self as u8
    }
}

impl fmt::Display for Refusal {
    fn fmt<W: fmt::Write>(&self, f: &mut fmt::Formatter<W>) -> fmt::Result {
        f.write_str(match self {
            Refusal::NoSuchSeat => "no such seat: a desk has the seats 0 to 7",
            Refusal::SeatTaken =>
                "the seat is taken: wait until its transfer has ended, or take another",
            Refusal::SeatEmpty => "nobody is at the seat: enter an order first",
            Refusal::NotAtHead =>
                "not at the head of the line: wait until the transfers ahead have ended",
            Refusal::OtherDue => "the other of send and receive is due",
            Refusal::BadOrder =>
                "no such order: a download has 1 to 4 bytes, a budget is at least 1, a counter is 1 to 7",
            Refusal::BufferLength =>
                "a buffer's length: a frame buffer has 16 to 1486 bytes, a reply at most 1486, a data buffer at most 131070",
            Refusal::Undecodable =>
                "undecodable: too few bytes, or a number in them that is not listed",
            Refusal::WrongReply =>
                "the reply answers no request of this transfer: its type, index or sub-index is another",
            Refusal::TooLarge => "the object is larger than the data buffer: lend a longer one",
            Refusal::MissingBytes =>
                "the reply names bytes that are not there, or that the data buffer has no room for",
            Refusal::LengthField =>
                "the reply's length field is too small: below 3 of a segment, or 8 of a list",
            Refusal::BudgetSpent =>
                "the drive sent as many replies as the budget allows, and is not finished: it is faulty, or needs a greater budget",
        })
    }
}

impl Error for Refusal {}
