// The whole object list: the items of one reader, stored as far as there is room.
ghost use Rattle.std.specs.Prelude.{◌≡◌, set};
ghost use Rattle.reads.specs.Whole.{list_read, stored};

use crate::list::odd;
use crate::reader::ListReader;
use wire::refusal::Refusal;

fn put(items: &mut [u16], at: usize, index: u16)
    ensures { items.new ≡ set items.old at index }
{
    if at < items.len() {
        items[at] = index;
    }
}

// The indices of a finished payload, in order, to the front of `items`, and how many it has; where there is room for fewer, only those
// are stored.
pub fn read_list(payload: &[u8], items: &mut [u16]) -> Result<usize, Refusal>
    ensures { (result ≡ list_read payload.now) × (items.new ≡ stored items.old payload.now) }
{
    if odd(payload) {
        return Err(Refusal::Undecodable);
    }
    for (place, index) in ListReader::new(payload).enumerate() {
        // Not by `items.iter_mut().zip(..)`: behind an adapter, what std says of `iter_mut` leaves open what the items end as.
        put(items, place, index);
    }
    Ok(payload.len() / 2)
}
