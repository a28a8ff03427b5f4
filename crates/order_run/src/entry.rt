// Line one of an order file: the listed forms, and the order that each asks for.
ghost use Rattle.std.specs.Prelude.{◌≡◌, ◌-◌, ◌≤◌, length};
ghost use Rattle.order_run.specs.Entry.{order_with, download_of, form_of};

use transfer::Order;
use transfer::entry::DEFAULT_BUDGET;

fn listed(kind: u8, sub: u8, index: u16) -> Order
    ensures { result ≡ order_with kind sub index 0 0 }
{
    Order {
        kind,
        sub,
        index,
        value: 0,
        len: 0,
        budget: DEFAULT_BUDGET,
    }
}

fn download(frame: &[u8]) -> Order
    requires least { 4 ≤ length frame.now }
    requires most { length frame.now - 4 ≤ 4 }
    ensures { result ≡ download_of frame.now }
{
    Order {
        kind: 3,
        sub: wire::byte(frame, 3),
        index: wire::word_at(frame, 1),
        value: wire::long_at(frame, 4),
        len: (frame.len() - 4) as u8,
        budget: DEFAULT_BUDGET,
    }
}

#[tactic(auto, using(wire::proofs::Tests::tests), unfolding(crate::specs::Entry::form_of, crate::specs::Entry::is_form))]
pub fn form_of(frame: &[u8]) -> Option<Order>
    ensures { result ≡ form_of frame.now }
{
    match frame {
        [1, _, _, sub] => Some(listed(1, *sub, wire::word_at(frame, 1))),
        [2, _, _] => Some(listed(2, 0, wire::word_at(frame, 1))),
        [3, _, _, _, bytes @ ..] if bytes.len() <= 4 => Some(download(frame)),
        [4, kind] => Some(listed(4, 0, *kind as u16)),
        [5] => Some(listed(5, 0, 0)),
        _ => None,
    }
}
