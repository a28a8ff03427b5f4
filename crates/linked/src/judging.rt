// The reply judge without desk and budget. Kinds: 1 upload, 3 download, 4 list not begun, 7 segment, 8 list begun.
ghost use Rattle.std.specs.Prelude.{◌≡◌};
ghost use Rattle.linked.specs.Judging.{asked, has_begun, place_for, went_on, goes_on, told_of, Judges};

use judge::{Answer, Verdict, answer_of, plain};
use transfer::due::Reply;
use wire::refusal::Refusal;

// What the reply answers, by the number that a host hands in.
#[tactic(auto, using(wire::proofs::Tests::tests), unfolding(crate::specs::Judging::asked))]
fn asked(kind: u8, index: u16, sub: u8) -> Option<Reply>
    ensures { result ≡ asked kind index sub }
{
    match kind {
        1 => Some(Reply::Upload { index, sub }),
        3 => Some(Reply::Download { index, sub }),
        4 => Some(Reply::Fragment { begun: false }),
        7 => Some(Reply::Segment),
        8 => Some(Reply::Fragment { begun: true }),
        _ => None,
    }
}

fn has_begun(due: Reply) -> bool
    ensures { result ≡ has_begun due }
{
    matches!(due, Reply::Fragment { begun: true })
}

// Where the chunk goes: the reply to an upload or a download has no earlier chunks.
fn place_for(due: Reply, earlier: u32) -> usize
    ensures { result ≡ place_for due earlier }
{
    match due {
        Reply::Upload { .. } | Reply::Download { .. } => 0,
        _ => earlier as usize,
    }
}

// A reply that is not the last: its number and its chunk, and 1 once a list has begun.
fn went_on(number: u8, begun: u8, len: u16) -> Answer
    ensures { result ≡ went_on number begun len }
{
    Answer {
        sub: begun,
        length: len as u32,
        ..plain(number)
    }
}

fn goes_on(last: bool, answer: Answer, number: u8, begun: u8, len: u16) -> Answer
    ensures { result ≡ goes_on last answer number begun len }
{
    if last {
        return answer;
    }
    went_on(number, begun, len)
}

#[tactic(auto, unfolding(crate::specs::Judging::told_of))]
fn told_of(begun: bool, verdict: Verdict) -> Answer
    ensures { result ≡ told_of begun verdict }
{
    let answer = answer_of(verdict);
    match verdict {
        Verdict::Segment { len, last, .. } => goes_on(last, answer, 0x01, 0, len),
        Verdict::Fragment { len, last, .. } => goes_on(last, answer, 0x02, 1, len),
        Verdict::ReplyDue => went_on(0x02, u8::from(begun), 0),
        _ => answer,
    }
}

#[tactic(auto, using(wire::proofs::Tests::tests), unfolding(crate::specs::Judging::ruling_for))]
pub fn coe_judge(
    kind: u8,
    index: u16,
    sub: u8,
    earlier: u32,
    reply: &[u8],
    buffer: &mut [u8],
) -> Answer
    ensures { Judges kind index sub earlier reply.now buffer.old result buffer.new }
{
    let Some(due) = asked(kind, index, sub) else {
        return plain(Refusal::BadOrder.number());
    };
    if 1486 < reply.len() || 131070 < buffer.len() {
        return plain(Refusal::BufferLength.number());
    }
    let verdict = due.judge(reply, earlier, buffer.len() as u32);
    judge::store(verdict, reply, buffer, place_for(due, earlier));
    told_of(has_begun(due), verdict)
}
