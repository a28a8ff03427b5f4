// What is due of a transfer: a request to write, or a reply to judge.
ghost use Rattle.std.specs.Prelude.{◌≡◌};
ghost use Rattle.transfer.specs.Due.{first_request, first_reply, due_of, awaiting_of};

use crate::entry::Kind;
use crate::stage::Stage;
use crate::{Order, Transfer};
use services::Request;

// What the reply answers; begun: whether a fragment of the list came before.
#[derive(Clone, Copy, Debug, PartialEq, Eq)]
pub enum Reply {
    Upload { index: u16, sub: u8 },
    Download { index: u16, sub: u8 },
    Segment,
    Fragment { begun: bool },
}

#[derive(Clone, Copy, Debug, PartialEq, Eq)]
pub enum Due {
    Request(Request),
    Reply(Reply),
}

impl Order {
    // The first request, and what its reply is held to.
    #[tactic(auto, unfolding(crate::specs::Due::first_request, crate::specs::Due::first_reply))]
    fn first(self) -> (Request, Reply)
        ensures { result ≡ (first_request self, first_reply self) }
    {
        let index = self.index;
        match self.kind() {
            Some(Kind::Upload(access)) => (
                Request::Upload { index, access },
                Reply::Upload {
                    index,
                    sub: access.sub_index(),
                },
            ),
            Some(Kind::Download(access)) => (
                Request::Download {
                    index,
                    access,
                    value: self.value,
                    len: self.len,
                },
                Reply::Download {
                    index,
                    sub: access.sub_index(),
                },
            ),
            Some(Kind::ObjectList) => (
                Request::Information { kind: index },
                Reply::Fragment { begun: false },
            ),
            Some(Kind::Quantities) | None => (
                Request::Information { kind: 0 },
                Reply::Fragment { begun: false },
            ),
        }
    }
}

impl Transfer {
    #[tactic(auto, unfolding(crate::specs::Due::due_of))]
    pub(crate) fn due(self) -> Due
        ensures { result ≡ due_of self }
    {
        match Stage::from(self.stage) {
            Stage::FirstRequest => Due::Request(self.order.first().0),
            Stage::FirstReply => Due::Reply(self.order.first().1),
            Stage::SegmentRequest => Due::Request(Request::Segment {
                toggle: self.toggle == 1,
            }),
            Stage::SegmentReply => Due::Reply(Reply::Segment),
            Stage::LaterFragment => Due::Reply(Reply::Fragment { begun: true }),
        }
    }

    // With its request sent.
    #[tactic(auto, using(wire::proofs::Tests::tests), unfolding(crate::specs::Due::awaiting_of))]
    pub(crate) fn awaiting(self) -> Transfer
        ensures { result ≡ awaiting_of self }
    {
        if self.stage == Stage::SegmentRequest as u8 {
            return Transfer {
                stage: Stage::SegmentReply as u8,
                toggle: u8::from(self.toggle != 1),
                ..self
            };
        }
        Transfer {
            stage: Stage::FirstReply as u8,
            ..self
        }
    }
}
