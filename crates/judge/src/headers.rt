// Rule 1: the headers of a reply, each kind's together; and rule 4, whether they are those of the transfer that was asked.
ghost use Rattle.std.specs.Prelude.{◌≡◌};
ghost use Rattle.judge.specs.Headers.{read_front, read_behind, read_information_headers, wrong_type, wrong_address};

use mailbox::coe::CoeHeader;
use mailbox::information::SdoInfoHeader;
use mailbox::numbers::{CoeService, MailboxType};
use mailbox::sdo::SdoHeader;
use mailbox::{Header, MailboxHeader};
use wire::refusal::Refusal;

// What stands before byte 8.
#[derive(Clone, Copy)]
pub struct Front {
    pub mailbox: MailboxHeader,
    pub service: CoeService,
}

// The headers of a reply, of which the third is an H.
#[derive(Clone, Copy)]
pub struct Headers<H> {
    pub mailbox: MailboxHeader,
    pub service: CoeService,
    pub header: H,
}

// Of a reply that must have `least` bytes; None is an emergency, service 1, which no third header follows.
#[tactic(auto, using(crate::proofs::InOrder::fronts, wire::proofs::Tests::tests, crate::proofs::Listed::service_1), unfolding(crate::specs::Headers::read_front))]
fn read_front(s: &[u8], least: usize) -> Result<Option<Front>, Refusal>
    ensures { result ≡ read_front least s.now }
{
    if s.len() < least {
        return Err(Refusal::Undecodable);
    }
    let mailbox = MailboxHeader::unpack(s)?;
    let service = CoeHeader::unpack(s)?.service;
    if service == CoeService::Emergency {
        return Ok(None);
    }
    Ok(Some(Front { mailbox, service }))
}

// Of the reply to an upload or a download, and of a segment. A hint to the compiler: called, it hands the headers on in memory, and a
// judgement takes some 70 instructions more.
#[inline(always)]
#[tactic(auto, using(crate::proofs::InOrder::fronts))]
pub(crate) fn read_behind<H: Header>(s: &[u8], least: usize) -> Result<Option<Headers<H>>, Refusal>
    ensures { result ≡ read_behind H.read least s.now }
{
    let Some(front) = read_front(s, least)? else {
        return Ok(None);
    };
    let header = H::unpack(s)?;
    Ok(Some(Headers {
        mailbox: front.mailbox,
        service: front.service,
        header,
    }))
}

// Of a reply to the request for a list, which has no rule for an emergency.
#[tactic(auto, using(crate::proofs::InOrder::fronts), unfolding(crate::specs::Headers::read_information_headers))]
pub(crate) fn read_information_headers(s: &[u8]) -> Result<Headers<SdoInfoHeader>, Refusal>
    ensures { result ≡ read_information_headers s.now }
{
    let mailbox = MailboxHeader::unpack(s)?;
    let service = CoeHeader::unpack(s)?.service;
    let header = SdoInfoHeader::unpack(s)?;
    Ok(Headers {
        mailbox,
        service,
        header,
    })
}

// Rule 4 of a segment.
#[tactic(auto, using(crate::proofs::Listed::type_3), unfolding(crate::specs::Headers::wrong_type))]
pub(crate) fn wrong_type(mailbox: MailboxHeader) -> bool
    ensures { result ≡ wrong_type mailbox }
{
    mailbox.mailbox_type != MailboxType::Coe
}

// Rule 4 of an upload or a download.
#[tactic(auto, using(wire::proofs::Tests::tests), unfolding(crate::specs::Headers::wrong_address))]
pub(crate) fn wrong_address(h: Headers<SdoHeader>, index: u16, sub: u8) -> bool
    ensures { result ≡ wrong_address h index sub }
{
    if wrong_type(h.mailbox) {
        return true;
    }
    if h.header.index != index {
        return true;
    }
    h.header.sub_index != sub
}
