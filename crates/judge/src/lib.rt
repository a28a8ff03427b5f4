// Judging a reply: any bytes go in, one of document 01's numbers comes out, by the rules of "Judging a reply" in their order,
// and the data buffer holds the chunk that the rules name. The Rust's coe/mod.rs: mailbox_write_read, sdo_read and
// send_sdo_info_service. Here: what a judgement says, and its answer in numbers; a module for each rule.
#![tactic(auto)]

ghost use Rattle.std.specs.Prelude.{◌≡◌};
ghost use Rattle.judge.specs.Answers.{plain_of, done_with, done_or, answer_of};

mod alarm;
mod chunk;
pub mod download;
pub mod headers;
pub mod information;
mod places;
pub mod segment;
pub mod storage;
pub mod upload;

pub use download::judge_download;
pub use information::judge_list;
pub use segment::judge_segment;
pub use storage::store;
pub use upload::judge_upload;

// A chunk is the reply's len bytes from byte `from` on, in no struct of its own, since `store` alone takes both; sum is the earlier chunks
// and this one.
#[derive(Clone, Copy, Debug, PartialEq, Eq)]
pub enum Verdict {
    // A number, so that what is promised of a refused verdict is promised of any. Not a Result around the rest: a segment of 1,486 bytes takes
    // some thirty instructions more then (docs/SPEED.md).
    Refused(u8),
    // Its eight bytes as one number. With its fields apart, or an abort's in another order, each judge is more than the compiler puts into
    // its callers, and every reply takes some forty instructions more.
    Emergency(u64),
    Aborted {
        sub: u8,
        index: u16,
        code: u32,
    },
    Done {
        from: u8,
        len: u16,
    },
    SegmentsFollow,
    Segment {
        from: u8,
        len: u16,
        sum: u32,
        last: bool,
    },
    Fragment {
        from: u8,
        len: u16,
        sum: u32,
        last: bool,
    },
    ReplyDue,
}

// The table's number and the values that go with it, 0 where one plays no part.
#[repr(C)]
#[derive(Clone, Copy, Debug, PartialEq, Eq)]
pub struct Answer {
    pub number: u8,
    pub sub: u8,
    pub index: u16,
    pub code: u32,
    pub length: u32,
    pub data: u64,
}

// An answer of a number alone.
pub fn plain(number: u8) -> Answer
    ensures { result ≡ plain_of number }
{
    Answer {
        number,
        sub: 0,
        index: 0,
        code: 0,
        length: 0,
        data: 0,
    }
}

fn done(length: u32) -> Answer
    ensures { result ≡ done_with length }
{
    Answer {
        number: 0x00,
        sub: 0,
        index: 0,
        code: 0,
        length,
        data: 0,
    }
}

// Done after the last chunk, and before it the number of what is due.
fn done_or(last: bool, length: u32, number: u8) -> Answer
    ensures { result ≡ done_or last length number }
{
    if last { done(length) } else { plain(number) }
}

// Each case's number and values.
#[tactic(auto, unfolding(crate::specs::Answers::answer_of))]
pub fn answer_of(verdict: Verdict) -> Answer
    ensures { result ≡ answer_of verdict }
{
    match verdict {
        Verdict::Refused(number) => plain(number),
        Verdict::Emergency(message) => Answer {
            number: 0x21,
            sub: (message / 65536 % 256) as u8,
            index: 0,
            code: (message % 65536) as u32,
            length: 0,
            data: message / 16777216 % 1099511627776,
        },
        Verdict::Aborted { sub, index, code } => Answer {
            number: 0x22,
            sub,
            index,
            code,
            length: 0,
            data: 0,
        },
        Verdict::Done { len, .. } => done(len as u32),
        Verdict::SegmentsFollow => plain(0x01),
        Verdict::Segment { sum, last, .. } => done_or(last, sum, 0x01),
        Verdict::Fragment { sum, last, .. } => done_or(last, sum, 0x02),
        Verdict::ReplyDue => plain(0x02),
    }
}
