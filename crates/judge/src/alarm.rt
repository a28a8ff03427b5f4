// Rules 2 and 3: a reply that is an emergency or an abort, whatever was asked.
ghost use Rattle.std.specs.Prelude.{◌≡◌};
ghost use Rattle.judge.specs.Alarm.{emergency_in, abort_in};

use crate::Verdict;
use crate::places::{ABORT_CODE, ABORT_LEAST, EMERGENCY_LEAST, INDEX, MESSAGE_AT, SUB_INDEX};
use wire::refusal::Refusal;

// Rule 2, of service 1.
#[tactic(auto, using(wire::proofs::Tests::tests), unfolding(crate::specs::Alarm::emergency_in))]
pub(crate) fn emergency(s: &[u8]) -> Verdict
    ensures { result ≡ emergency_in s.now }
{
    if s.len() < EMERGENCY_LEAST {
        return Verdict::Refused(Refusal::Undecodable.number());
    }
    Verdict::Emergency(wire::eight_at(s, MESSAGE_AT))
}

// Rule 3, of specifier 4. The index and sub-index are the reply's own.
#[tactic(auto, using(wire::proofs::Tests::tests, mailbox::proofs::Reading::reading), unfolding(crate::specs::Alarm::abort_in))]
pub(crate) fn abort(s: &[u8]) -> Verdict
    ensures { result ≡ abort_in s.now }
{
    if s.len() < ABORT_LEAST {
        return Verdict::Refused(Refusal::Undecodable.number());
    }
    Verdict::Aborted {
        sub: wire::byte(s, SUB_INDEX),
        index: wire::word_at(s, INDEX),
        code: wire::long_at(s, ABORT_CODE),
    }
}
