// What a judged reply comes to: the budget looked at, and where the transfer stands then.
ghost use Rattle.std.specs.Prelude.{◌≡◌};
ghost use Rattle.transfer.specs.Judgement.{judge_reply, goes_on, budgeted, judged_as, advanced_to, next_of, next_with};

use crate::Transfer;
use crate::due::Reply;
use crate::stage::Stage;
use judge::Verdict;
use wire::refusal::Refusal;

impl Reply {
    // sum: of the earlier chunks; n: the data buffer's length. A hint to the compiler: called, it takes what is due and hands the verdict on
    // in memory, and a segment takes some forty instructions more.
    #[inline(always)]
    #[tactic(auto, unfolding(crate::specs::Judgement::judge_reply))]
    pub fn judge(self, s: &[u8], sum: u32, n: u32) -> Verdict
        ensures { result ≡ judge_reply self sum n s.now }
    {
        match self {
            Reply::Upload { index, sub } => judge::judge_upload(s, index, sub, n),
            Reply::Download { index, sub } => judge::judge_download(s, index, sub),
            Reply::Segment => judge::judge_segment(s, sum, n),
            Reply::Fragment { begun } => judge::judge_list(s, begun, sum, n),
        }
    }
}

fn goes_on(verdict: Verdict) -> bool
    ensures { result ≡ goes_on verdict }
{
    match verdict {
        Verdict::SegmentsFollow | Verdict::ReplyDue => true,
        Verdict::Segment { last, .. } | Verdict::Fragment { last, .. } => !last,
        _ => false,
    }
}

#[tactic(auto, unfolding(crate::specs::Judgement::budgeted))]
fn settle(spent: bool, verdict: Verdict) -> Verdict
    ensures { result ≡ budgeted spent verdict }
{
    if spent && goes_on(verdict) {
        return Verdict::Refused(Refusal::BudgetSpent.number());
    }
    verdict
}

impl Transfer {
    // The verdict on the reply that is due; it is the budget's last where at most one is left.
    #[tactic(auto, unfolding(crate::specs::Judgement::judged_as))]
    pub(crate) fn judged(self, due: Reply, s: &[u8], n: u32) -> Verdict
        ensures { result ≡ judged_as self due n s.now }
    {
        settle(self.left <= 1, due.judge(s, self.sum, n))
    }

    // With one reply less left.
    fn advanced(self, stage: u8, sum: u32) -> Transfer
        ensures { result ≡ advanced_to self stage sum }
    {
        Transfer {
            stage,
            left: self.left.saturating_sub(1),
            sum,
            ..self
        }
    }

    #[tactic(auto, unfolding(crate::specs::Judgement::next_of))]
    pub(crate) fn next(self, verdict: Verdict) -> Option<Transfer>
        ensures { result ≡ next_with (next_of self verdict) }
    {
        match verdict {
            Verdict::SegmentsFollow => Some(self.advanced(Stage::SegmentRequest as u8, self.sum)),
            Verdict::Segment {
                sum,
                last: false,
                ..
            } => Some(self.advanced(Stage::SegmentRequest as u8, sum)),
            Verdict::Fragment {
                sum,
                last: false,
                ..
            } => Some(self.advanced(Stage::LaterFragment as u8, sum)),
            Verdict::ReplyDue => Some(self.advanced(self.stage, self.sum)),
            _ => None,
        }
    }
}
