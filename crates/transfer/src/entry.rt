// What may be entered, and the transfer that an order begins.
ghost use Rattle.std.specs.Prelude.{◌≡◌};
ghost use Rattle.transfer.specs.Entry.{kind_of, outside, unfit_of, opened_of};

use crate::stage::Stage;
use crate::{Order, Transfer};
use mailbox::sub_index::SubIndex;

// Document 02, [12]: "The default in the programs and in the linked functions that name no budget becomes 1,024."
pub const DEFAULT_BUDGET: u16 = 1024;

#[derive(Clone, Copy, Debug, PartialEq, Eq)]
pub enum Kind {
    Upload(SubIndex),
    Download(SubIndex),
    ObjectList,
    Quantities,
}

#[tactic(auto, using(wire::proofs::Tests::tests), unfolding(crate::specs::Entry::outside))]
fn is_outside(low: u16, high: u16, n: u16) -> bool
    ensures { result ≡ outside low high n }
{
    !(low..=high).contains(&n)
}

impl Order {
    // The kind that the number names, if it is one of the six.
    #[tactic(auto, using(wire::proofs::Tests::tests), unfolding(crate::specs::Entry::kind_of))]
    pub(crate) fn kind(self) -> Option<Kind>
        ensures { result ≡ kind_of self.kind self.sub }
    {
        match self.kind {
            1 => Some(Kind::Upload(SubIndex::Index(self.sub))),
            2 => Some(Kind::Upload(SubIndex::Complete)),
            3 => Some(Kind::Download(SubIndex::Index(self.sub))),
            4 => Some(Kind::ObjectList),
            5 => Some(Kind::Quantities),
            6 => Some(Kind::Download(SubIndex::Complete)),
            _ => None,
        }
    }

    #[tactic(auto, using(wire::proofs::Tests::tests), unfolding(crate::specs::Entry::unfit_of))]
    pub(crate) fn is_unfit(self) -> bool
        ensures { result ≡ unfit_of self }
    {
        if self.budget == 0 {
            return true;
        }
        match self.kind() {
            Some(Kind::Upload(_)) => false,
            Some(Kind::Download(_)) => is_outside(1, 4, self.len as u16),
            Some(Kind::ObjectList) => is_outside(1, 5, self.index),
            Some(Kind::Quantities) => false,
            None => true,
        }
    }

    pub(crate) fn opened(self) -> Transfer
        ensures { result ≡ opened_of self }
    {
        Transfer {
            order: self,
            stage: Stage::FirstRequest as u8,
            toggle: 0,
            left: self.budget,
            sum: 0,
        }
    }
}
