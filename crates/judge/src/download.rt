// The reply to a download.
ghost use Rattle.std.specs.Prelude.{◌≡◌};
ghost use Rattle.judge.specs.Download.{download_of, judge_download};

use crate::Verdict;
use crate::alarm::{abort, emergency};
use crate::headers::{read_behind, wrong_address};
use crate::places::{DOWNLOAD_LEAST, SDO_LEAST};
use mailbox::numbers::CoeCommand;
use mailbox::sdo::SdoHeader;
use wire::refusal::Refusal;

#[tactic(auto, using(wire::proofs::Tests::tests), unfolding(crate::specs::Download::download_of))]
fn download(size: usize) -> Verdict
    ensures { result ≡ download_of size }
{
    if size < DOWNLOAD_LEAST {
        return Verdict::Refused(Refusal::Undecodable.number());
    }
    Verdict::Done { from: 0, len: 0 }
}

// Judges the reply to a download of an index and sub-index.
#[tactic(auto, using(crate::proofs::InOrder::order), unfolding(crate::specs::Download::judge_download, crate::specs::Reply::reply_to, crate::specs::Headers::read_headers))]
pub fn judge_download(s: &[u8], index: u16, sub: u8) -> Verdict
    ensures { result ≡ judge_download index sub s.now }
{
    match read_behind::<SdoHeader>(s, SDO_LEAST) {
        Err(_) => Verdict::Refused(Refusal::Undecodable.number()),
        Ok(None) => emergency(s),
        Ok(Some(h)) => {
            if h.header.command == CoeCommand::Abort {
                return abort(s);
            }
            if wrong_address(h, index, sub) {
                return Verdict::Refused(Refusal::WrongReply.number());
            }
            download(s.len())
        }
    }
}
