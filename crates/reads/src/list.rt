// The object list: one index at a position of a finished payload, and where the next one stands.
ghost use Rattle.std.specs.Prelude.{◌≡◌, ◌-◌};
ghost use Rattle.reads.specs.List.{odd, item_at};

use wire::refusal::Refusal;

#[derive(Clone, Copy, Debug, PartialEq, Eq)]
pub struct Item {
    pub index: u16,
    pub next: usize,
}

pub(crate) fn odd(payload: &[u8]) -> bool
    ensures { result ≡ odd payload.now }
{
    payload.len() % 2 == 1
}

// The index at a position, which counts bytes and may be any, and the position of the next.
#[tactic(auto, using(wire::proofs::Tests::tests), unfolding(crate::specs::List::item_at))]
pub fn item_at(payload: &[u8], at: usize) -> Result<Item, Refusal>
    ensures { result ≡ item_at payload.now at }
{
    if odd(payload) || payload.len().saturating_sub(at) < 2 {
        return Err(Refusal::Undecodable);
    }
    Ok(Item {
        index: wire::word_at(payload, at),
        next: at + 2,
    })
}
