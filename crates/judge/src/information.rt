// Replies to the request for an object list: one request, many replies.
ghost use Rattle.std.specs.Prelude.{◌≡◌};
ghost use Rattle.judge.specs.Information.{fragment_at, fragment_of, judge_list};

use crate::Verdict;
use crate::chunk::chunk_at;
use crate::headers::{Headers, read_information_headers};
use crate::places::{FIRST_FRAGMENT_AT, LATER_FRAGMENT_AT};
use mailbox::information::SdoInfoHeader;
use mailbox::numbers::SdoInfoOpCode;
use wire::refusal::Refusal;

#[tactic(auto, unfolding(crate::specs::Information::fragment_at))]
fn fragment_at(begun: bool) -> u8
    ensures { result ≡ fragment_at begun }
{
    if begun {
        LATER_FRAGMENT_AT
    } else {
        FIRST_FRAGMENT_AT
    }
}

#[tactic(auto, using(wire::proofs::Tests::tests), unfolding(crate::specs::Information::fragment_of))]
fn fragment(size: usize, h: Headers<SdoInfoHeader>, from: u8, earlier: u32, n: u32) -> Verdict
    ensures { result ≡ fragment_of size h from earlier n }
{
    if h.mailbox.length < 8 {
        return Verdict::Refused(Refusal::LengthField.number());
    }
    let len = h.mailbox.length - 8;
    let Some(sum) = chunk_at(size, from, len, earlier, n) else {
        return Verdict::Refused(Refusal::MissingBytes.number());
    };
    Verdict::Fragment {
        from,
        len,
        sum,
        last: !h.header.incomplete,
    }
}

// Judges a reply of a list after chunks of `earlier` bytes, into a buffer of n; begun: a fragment came before.
#[tactic(auto, using(crate::proofs::Listed::operation_2), unfolding(crate::specs::Information::judge_list))]
pub fn judge_list(s: &[u8], begun: bool, earlier: u32, n: u32) -> Verdict
    ensures { result ≡ judge_list begun earlier n s.now }
{
    match read_information_headers(s) {
        Err(_) => Verdict::Refused(Refusal::Undecodable.number()),
        Ok(h) => {
            if h.header.op_code == SdoInfoOpCode::GetObjectDescriptionListResponse {
                return fragment(s.len(), h, fragment_at(begun), earlier, n);
            }
            Verdict::ReplyDue
        }
    }
}
