// The reads of a finished payload: 00 and what was read, or 20.
ghost use Rattle.std.specs.Prelude.{◌≡◌};
ghost use Rattle.reads.specs.Typed.{unsigned_read, signed_read};
ghost use Rattle.reads.specs.List.{item_at};
ghost use Rattle.reads.specs.Quantities.{quantities_read};
ghost use Rattle.linked.specs.Reading.{unsigned_of, signed_of, item_of, quantities_of};

use linked::reading;
use linked::reading::{Item, Quantities, Signed, Unsigned};

#[unsafe(no_mangle)]
pub extern "C" fn coe_read_u8(payload: &[u8]) -> Unsigned
    ensures { result ≡ unsigned_of (unsigned_read 1 payload.now) }
{
    reading::coe_read_u8(payload)
}

#[unsafe(no_mangle)]
pub extern "C" fn coe_read_u16(payload: &[u8]) -> Unsigned
    ensures { result ≡ unsigned_of (unsigned_read 2 payload.now) }
{
    reading::coe_read_u16(payload)
}

#[unsafe(no_mangle)]
pub extern "C" fn coe_read_u32(payload: &[u8]) -> Unsigned
    ensures { result ≡ unsigned_of (unsigned_read 4 payload.now) }
{
    reading::coe_read_u32(payload)
}

#[unsafe(no_mangle)]
pub extern "C" fn coe_read_i8(payload: &[u8]) -> Signed
    ensures { result ≡ signed_of (signed_read 1 payload.now) }
{
    reading::coe_read_i8(payload)
}

#[unsafe(no_mangle)]
pub extern "C" fn coe_read_i16(payload: &[u8]) -> Signed
    ensures { result ≡ signed_of (signed_read 2 payload.now) }
{
    reading::coe_read_i16(payload)
}

#[unsafe(no_mangle)]
pub extern "C" fn coe_read_i32(payload: &[u8]) -> Signed
    ensures { result ≡ signed_of (signed_read 4 payload.now) }
{
    reading::coe_read_i32(payload)
}

// A refused item has the index 0, and `next` is `at`.
#[unsafe(no_mangle)]
pub extern "C" fn coe_list_item(payload: &[u8], at: usize) -> Item
    ensures { result ≡ item_of at (item_at payload.now at) }
{
    reading::coe_list_item(payload, at)
}

#[unsafe(no_mangle)]
pub extern "C" fn coe_read_quantities(payload: &[u8]) -> Quantities
    ensures { result ≡ quantities_of (quantities_read payload.now) }
{
    reading::coe_read_quantities(payload)
}
