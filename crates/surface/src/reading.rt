// The reads of a finished payload.
ghost use Rattle.std.specs.Prelude.{◌≡◌};
ghost use Rattle.surface.specs.Reads.{typed_in, item_in, quantities_in};

use linked::reading;
use linked::reading::{Item, Quantities, Signed, Unsigned};

// The first 1, 2 and 4 bytes of a payload, unsigned and signed.
#[repr(C)]
#[derive(Clone, Copy)]
pub struct Typed {
    pub byte: Unsigned,
    pub word: Unsigned,
    pub long: Unsigned,
    pub signed_byte: Signed,
    pub signed_word: Signed,
    pub signed_long: Signed,
}

pub fn numbers(payload: &[u8]) -> Typed
    ensures { result ≡ typed_in payload.now }
{
    let byte = reading::coe_read_u8(payload);
    let word = reading::coe_read_u16(payload);
    let long = reading::coe_read_u32(payload);
    let signed_byte = reading::coe_read_i8(payload);
    let signed_word = reading::coe_read_i16(payload);
    let signed_long = reading::coe_read_i32(payload);
    Typed {
        byte,
        word,
        long,
        signed_byte,
        signed_word,
        signed_long,
    }
}

#[tactic(auto, using(crate::proofs::Payloads::item_in_lem))]
pub fn item(payload: &[u8], at: usize) -> Item
    ensures { result ≡ item_in payload.now at }
{
    reading::coe_list_item(payload, at)
}

#[tactic(auto, using(crate::proofs::Payloads::quantities_in_lem))]
pub fn quantities(payload: &[u8]) -> Quantities
    ensures { result ≡ quantities_in payload.now }
{
    reading::coe_read_quantities(payload)
}
