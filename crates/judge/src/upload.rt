// The first reply to an upload: expedited, normal, or the beginning of segments.
ghost use Rattle.std.specs.Prelude.{◌≡◌, ◌≤◌};
ghost use Rattle.judge.specs.Upload.{expedited_of, whole_of, normal_of, upload_of, judge_upload};

use crate::Verdict;
use crate::alarm::{abort, emergency};
use crate::chunk::lacks;
use crate::headers::{Headers, read_behind, wrong_address};
use crate::places::{COMPLETE_SIZE, EXPEDITED_AT, NORMAL_AT, NORMAL_LEAST, SDO_LEAST};
use mailbox::numbers::CoeCommand;
use mailbox::sdo::SdoHeader;
use wire::refusal::Refusal;

#[tactic(auto, unfolding(crate::specs::Upload::expedited_of))]
fn expedited(size: usize, unused: u8) -> Verdict
    ensures { result ≡ expedited_of size unused }
{
    let len = 4_u16.saturating_sub(unused as u16);
    if lacks(size, EXPEDITED_AT, len) {
        return Verdict::Refused(Refusal::MissingBytes.number());
    }
    Verdict::Done {
        from: EXPEDITED_AT,
        len,
    }
}

// A normal upload whose data are all in this reply, which reaches to them: so an empty payload is there without a test of its own.
#[tactic(auto, using(wire::proofs::Tests::tests, crate::proofs::Reached::reached), unfolding(crate::specs::Upload::whole_of))]
fn whole(size: usize, len: u16) -> Verdict
    requires { 16 ≤ size }
    ensures { result ≡ whole_of size len }
{
    if size < (NORMAL_AT as usize) + (len as usize) {
        return Verdict::Refused(Refusal::MissingBytes.number());
    }
    Verdict::Done {
        from: NORMAL_AT,
        len,
    }
}

#[tactic(auto, using(wire::proofs::Tests::tests, mailbox::proofs::Reading::reading), unfolding(crate::specs::Upload::normal_of))]
fn normal(s: &[u8], length: u16, n: u32) -> Verdict
    ensures { result ≡ normal_of s.now length n }
{
    if s.len() < NORMAL_LEAST {
        return Verdict::Refused(Refusal::Undecodable.number());
    }
    let complete_size = wire::long_at(s, COMPLETE_SIZE);
    if n < complete_size {
        return Verdict::Refused(Refusal::TooLarge.number());
    }
    let d = length.saturating_sub(10);
    if complete_size <= (d as u32) {
        return whole(s.len(), d);
    }
    Verdict::SegmentsFollow
}

#[tactic(auto, unfolding(crate::specs::Upload::upload_of))]
fn upload(s: &[u8], h: Headers<SdoHeader>, n: u32) -> Verdict
    ensures { result ≡ upload_of s.now h n }
{
    if h.header.expedited_transfer {
        return expedited(s.len(), h.header.size);
    }
    normal(s, h.mailbox.length, n)
}

// Judges the first reply to an upload of an index and sub-index into a buffer of n bytes. Each judge has these arms: a function of them,
// with the test of rule 4 and the kind's own rule as closures, would be no shorter.
#[tactic(auto, using(crate::proofs::InOrder::order), unfolding(crate::specs::Upload::judge_upload, crate::specs::Reply::reply_to, crate::specs::Headers::read_headers))]
pub fn judge_upload(s: &[u8], index: u16, sub: u8, n: u32) -> Verdict
    ensures { result ≡ judge_upload index sub n s.now }
{
    match read_behind::<SdoHeader>(s, SDO_LEAST) {
        Err(_) => Verdict::Refused(Refusal::Undecodable.number()),
        Ok(None) => emergency(s),
        Ok(Some(h)) => {
            if h.header.command == CoeCommand::Abort {
                return abort(s);
            }
            if wrong_address(h, index, sub) {
                return Verdict::Refused(Refusal::WrongReply.number());
            }
            upload(s, h, n)
        }
    }
}
