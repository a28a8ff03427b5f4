// A line as its digits come: the bytes so far stand at the front of the frame.
ghost use Rattle.std.specs.Prelude.{◌≡◌, false, None, ◌+◌, ◌*◌, ◌≤◌, ◌<◌, length, drop};
ghost use Rattle.order_text.specs.Digits.{digit_of};
ghost use Rattle.order_run.specs.Feed.{Whole};

use crate::table::DigitTable;
use std::marker::Model;

// "at most 1,486 bytes each"
pub const LONGEST: usize = 1486;

// How many bytes there are, and the first digit of one that is begun.
#[derive(Clone, Copy, Debug, PartialEq, Eq)]
pub struct Part {
    pub count: usize,
    pub half: Option<u8>,
}

impl Model for Part {
    ghost use Rattle.order_run.specs.Part.{Part, part, Begun};

    ghost Value = { Part };

    ghost view = { λ p. part p.count p.half };

    ghost invariant = { λ p. Begun (part p.count p.half) };

    ghost inverse = { λ p. record { count = p.count; half = p.half } };
}

// The bytes that the text begins with, as far as they have room; answers how many. By places: the place of the first two characters that
// make no byte is the answer.
fn pairs(table: &DigitTable, text: &[u8], frame: &mut [u8], at: usize) -> usize
    requires at_bound { at ≤ 1486 }
    requires frame_len { length frame.old ≡ 1486 }
    ensures { Whole text.now at frame.old result frame.new }
{
    let most = (text.len() / 2).min(frame.len() - at);
    for k in 0..most {
        let Some(b) = table.byte(text[2 * k], text[2 * k + 1]) else {
            return k;
        };
        frame[at + k] = b;
    }
    most
}

impl Part {
    ghost use Rattle.order_run.specs.Part.{nothing};
    ghost use Rattle.order_run.specs.Feed.{begun, further, fails, put_part, put_frame};

    pub(crate) fn nothing() -> Part
        ensures { result ≡ nothing }
    {
        Part {
            count: 0,
            half: None,
        }
    }

    // Whether a line has characters that no line end has followed.
    #[tactic(auto, using(wire::proofs::Tests::tests), unfolding(crate::specs::Feed::begun))]
    pub(crate) fn is_begun(self) -> bool
        ensures { result ≡ begun self }
    {
        self.half.is_some() || 0 < self.count
    }

    #[tactic(auto, using(wire::proofs::Tests::tests), unfolding(crate::specs::Feed::fails))]
    pub(crate) fn is_bad(self, c: u8) -> bool
        ensures { result ≡ fails self c }
    {
        15 < order_text::digit(c) || self.half.is_none() && LONGEST <= self.count
    }

    #[tactic(auto, unfolding(crate::specs::Feed::put_part, crate::specs::Feed::put_frame))]
    pub(crate) fn put(self, c: u8, frame: &mut [u8]) -> Part
        requires good { fails self c ≡ false }
        requires frame_len { length frame.old ≡ 1486 }
        ensures { (result ≡ put_part self (digit_of c)) × (frame.new ≡ put_frame self (digit_of c) frame.old) }
    {
        let digit = order_text::digit(c);
        let count = self.count;
        let Some(high) = self.half else {
            return Part {
                count,
                half: Some(digit),
            };
        };
        frame[count] = 16 * high + digit;
        Part {
            count: count + 1,
            half: None,
        }
    }

    // Where no byte is begun: how many bytes the text from a place on begins with, taken two digits at a time.
    pub(crate) fn whole_bytes(
        self,
        table: &DigitTable,
        text: &[u8],
        from: usize,
        frame: &mut [u8],
    ) -> usize
        requires from_in_bounds { from ≤ length text.now }
        requires frame_len { length frame.old ≡ 1486 }
        ensures { Whole (drop from text.now) self.count frame.old result frame.new × (0 < result → self.half ≡ None) }
    {
        match self.half {
            None => pairs(table, &text[from..], frame, self.count),
            Some(_) => 0,
        }
    }

    pub(crate) fn further(self, more: usize) -> Part
        requires room { self.count + more ≤ 1486 }
        requires whole { 0 < more → self.half ≡ None }
        ensures { result ≡ further self more }
    {
        Part {
            count: self.count + more,
            half: self.half,
        }
    }
}
