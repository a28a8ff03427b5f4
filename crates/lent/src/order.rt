// An order as a host hands it in: numbers, and a download's data as a slice.
ghost use Rattle.std.specs.Prelude.{◌≡◌};
ghost use Rattle.lent.specs.Order.{len_of, order_from};

use transfer::Order;

#[tactic(auto, unfolding(crate::specs::Order::len_of))]
fn len_of(n: usize) -> u8
    ensures { result ≡ len_of n }
{
    n.min(5) as u8
}

#[tactic(auto, unfolding(crate::specs::Order::order_from))]
pub fn order_from(kind: u8, index: u16, sub: u8, bytes: &[u8], budget: u16) -> Order
    ensures { result ≡ order_from kind index sub bytes.now budget }
{
    let value = wire::long_at(bytes, 0);
    let len = len_of(bytes.len());
    Order {
        kind,
        sub,
        index,
        value,
        len,
        budget,
    }
}
