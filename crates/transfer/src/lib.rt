// One transfer, which knows nothing of other transfers: how an order begins, which request is due, what a reply does. The loops of
// the Rust's coe/mod.rs, sdo_read and sdo_write, as calls. Here: the records, which hold numbers only, and the three calls; in the
// modules what may be entered, what is due, and what a judged reply comes to.
#![tactic(auto)]

ghost use Rattle.std.specs.Prelude.{◌≡◌};
ghost use Rattle.transfer.specs.Coe.{begins_with, sends_if_due, receives_if_due, ruling_of, sending_of, frame_of, step_of, data_of};

use due::Due;
use judge::Answer;
use wire::refusal::Refusal;

pub mod due;
pub mod entry;
pub mod judgement;
mod stage;

// What a task asks for. Kinds: 1 upload, 2 complete upload, 3 download, 4 object list, whose list kind stands in index,
// 5 quantities, 6 complete download. A download's data are the first `len` bytes of value, low byte first.
#[repr(C)]
#[derive(Clone, Copy, Debug, PartialEq, Eq)]
pub struct Order {
    pub kind: u8,
    pub sub: u8,
    pub index: u16,
    pub value: u32,
    pub len: u8,
    pub budget: u16,
}

// Where a transfer stands: what is due (the number of a Stage), the toggle of the next segment's request, how many replies
// its budget still has, and the sum of the chunks so far.
#[repr(C)]
#[derive(Clone, Copy, Debug, PartialEq, Eq)]
pub struct Transfer {
    pub order: Order,
    pub stage: u8,
    pub toggle: u8,
    pub left: u16,
    pub sum: u32,
}

impl Order {
    // What an entry comes to.
    #[tactic(auto, unfolding(crate::specs::Coe::begins_with))]
    pub fn begin(self) -> Result<Transfer, Refusal>
        ensures { ruling_of result ≡ begins_with self }
    {
        if self.is_unfit() {
            return Err(Refusal::BadOrder);
        }
        Ok(self.opened())
    }
}

impl Transfer {
    // Writes the request that is due.
    #[tactic(auto, unfolding(services::specs::Written::wrote_of, services::specs::Written::frame_with, crate::specs::Coe::sends_if_due, crate::specs::Coe::sends_with, crate::specs::Due::request_due))]
    pub fn send(self, counter: u8, frame: &mut [u8]) -> Result<Transfer, Refusal>
        ensures { (ruling_of result ≡ sending_of (sends_if_due self counter frame.old)) × (frame.new ≡ frame_of frame.old (sends_if_due self counter frame.old)) }
    {
        let Due::Request(request) = self.due() else {
            return Err(Refusal::OtherDue);
        };
        services::write_request(counter, request, frame)?;
        Ok(self.awaiting())
    }

    // Judges the reply that is due and stores its chunk; the transfer afterwards, if it is not over.
    #[tactic(auto, using(wire::proofs::Tests::tests), unfolding(crate::specs::Coe::receives_if_due, crate::specs::Coe::receives_with, crate::specs::Coe::judged, crate::specs::Due::request_due))]
    pub fn receive(
        self,
        reply: &[u8],
        buffer: &mut [u8],
    ) -> Result<(Answer, Option<Transfer>), Refusal>
        ensures { (ruling_of result ≡ step_of (receives_if_due self reply.now buffer.old)) × (buffer.new ≡ data_of buffer.old (receives_if_due self reply.now buffer.old)) }
    {
        let Due::Reply(due) = self.due() else {
            return Err(Refusal::OtherDue);
        };
        if 1486 < reply.len() || 131070 < buffer.len() {
            return Err(Refusal::BufferLength);
        }
        let verdict = self.judged(due, reply, buffer.len() as u32);
        judge::store(verdict, reply, buffer, self.sum as usize);
        Ok((judge::answer_of(verdict), self.next(verdict)))
    }
}
