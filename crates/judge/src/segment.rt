// The reply to the request for a segment.
ghost use Rattle.std.specs.Prelude.{◌≡◌};
ghost use Rattle.judge.specs.Segment.{chunk_length, segment_of, judge_segment};

use crate::Verdict;
use crate::alarm::{abort, emergency};
use crate::chunk::chunk_at;
use crate::headers::{Headers, read_behind, wrong_type};
use crate::places::{SEGMENT_AT, SEGMENT_LEAST};
use mailbox::numbers::CoeCommand;
use mailbox::segment::SdoHeaderSegmented;
use wire::refusal::Refusal;

// Only of a chunk of exactly 7 the unused count is taken off.
#[tactic(auto, using(wire::proofs::Tests::tests), unfolding(crate::specs::Segment::chunk_length))]
fn chunk_length(length: u16, unused: u8) -> u16
    ensures { result ≡ chunk_length length unused }
{
    let len = length.saturating_sub(3);
    if len == 7 {
        return 7_u16.saturating_sub(unused as u16);
    }
    len
}

#[tactic(auto, using(wire::proofs::Tests::tests), unfolding(crate::specs::Segment::segment_of))]
fn segment(size: usize, h: Headers<SdoHeaderSegmented>, earlier: u32, n: u32) -> Verdict
    ensures { result ≡ segment_of size h earlier n }
{
    if h.mailbox.length < 3 {
        return Verdict::Refused(Refusal::LengthField.number());
    }
    let len = chunk_length(h.mailbox.length, h.header.segment_data_size);
    let Some(sum) = chunk_at(size, SEGMENT_AT, len, earlier, n) else {
        return Verdict::Refused(Refusal::MissingBytes.number());
    };
    Verdict::Segment {
        from: SEGMENT_AT,
        len,
        sum,
        last: h.header.is_last_segment,
    }
}

// Judges a segment after chunks of `earlier` bytes, into a buffer of n.
#[tactic(auto, using(crate::proofs::InOrder::order), unfolding(crate::specs::Segment::judge_segment, crate::specs::Headers::read_segment_headers))]
pub fn judge_segment(s: &[u8], earlier: u32, n: u32) -> Verdict
    ensures { result ≡ judge_segment earlier n s.now }
{
    match read_behind::<SdoHeaderSegmented>(s, SEGMENT_LEAST) {
        Err(_) => Verdict::Refused(Refusal::Undecodable.number()),
        Ok(None) => emergency(s),
        Ok(Some(h)) => {
            if h.header.command == CoeCommand::Abort {
                return abort(s);
            }
            if wrong_type(h.mailbox) {
                return Verdict::Refused(Refusal::WrongReply.number());
            }
            segment(s.len(), h, earlier, n)
        }
    }
}
