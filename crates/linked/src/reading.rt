// The reads of a finished payload: 00 and what was read, or 20.
ghost use Rattle.std.specs.Prelude.{◌≡◌};
ghost use Rattle.reads.specs.Typed.{unsigned_read, signed_read};
ghost use Rattle.reads.specs.List.{item_at};
ghost use Rattle.reads.specs.Quantities.{quantities_read};
ghost use Rattle.linked.specs.Reading.{unsigned_of, signed_of, item_of, counts_with, quantities_of};

use reads::list::item_at;
use reads::quantities::{ObjectDescriptionListQueryCounts, read_quantities};
use reads::typed::read;
use wire::refusal::Refusal;

// A number that was read, beside 00; where it was refused, 0 beside the refusal's number.
// Two records: `coe_read_u8` and `coe_read_i8` are C's, and the signature of an exported function takes no struct with a type parameter.
#[repr(C)]
#[derive(Clone, Copy)]
pub struct Unsigned {
    pub number: u8,
    pub value: u32,
}

#[repr(C)]
#[derive(Clone, Copy)]
pub struct Signed {
    pub number: u8,
    pub value: i32,
}

#[repr(C)]
#[derive(Clone, Copy)]
pub struct Item {
    pub number: u8,
    pub index: u16,
    pub next: usize,
}

#[repr(C)]
#[derive(Clone, Copy)]
pub struct Quantities {
    pub number: u8,
    pub all: u16,
    pub rx_pdo_mappable: u16,
    pub tx_pdo_mappable: u16,
    pub stored_for_device_replacement: u16,
    pub startup_parameters: u16,
}

impl From<Result<u32, Refusal>> for Unsigned {
    ghost from_gives = { λ read r. r ≡ unsigned_of read };

    fn from(read: Result<u32, Refusal>) -> Unsigned {
        match read {
            Ok(value) => Unsigned { number: 0, value },
            Err(refusal) => Unsigned {
                number: refusal.number(),
                value: 0,
            },
        }
    }
}

impl From<Result<i32, Refusal>> for Signed {
    ghost from_gives = { λ read r. r ≡ signed_of read };

    fn from(read: Result<i32, Refusal>) -> Signed {
        match read {
            Ok(value) => Signed { number: 0, value },
            Err(refusal) => Signed {
                number: refusal.number(),
                value: 0,
            },
        }
    }
}

// Six functions around one, since C calls each by its name.
pub fn coe_read_u8(payload: &[u8]) -> Unsigned
    ensures { result ≡ unsigned_of (unsigned_read 1 payload.now) }
{
    read::<u8>(payload).map(u32::from).into()
}

pub fn coe_read_u16(payload: &[u8]) -> Unsigned
    ensures { result ≡ unsigned_of (unsigned_read 2 payload.now) }
{
    read::<u16>(payload).map(u32::from).into()
}

pub fn coe_read_u32(payload: &[u8]) -> Unsigned
    ensures { result ≡ unsigned_of (unsigned_read 4 payload.now) }
{
    read::<u32>(payload).into()
}

pub fn coe_read_i8(payload: &[u8]) -> Signed
    ensures { result ≡ signed_of (signed_read 1 payload.now) }
{
    read::<i8>(payload).map(i32::from).into()
}

pub fn coe_read_i16(payload: &[u8]) -> Signed
    ensures { result ≡ signed_of (signed_read 2 payload.now) }
{
    read::<i16>(payload).map(i32::from).into()
}

pub fn coe_read_i32(payload: &[u8]) -> Signed
    ensures { result ≡ signed_of (signed_read 4 payload.now) }
{
    read::<i32>(payload).into()
}

// A refused item has the index 0, and `next` is `at`.
pub fn coe_list_item(payload: &[u8], at: usize) -> Item
    ensures { result ≡ item_of at (item_at payload.now at) }
{
    match item_at(payload, at) {
        Ok(item) => Item {
            number: 0,
            index: item.index,
            next: item.next,
        },
        Err(refusal) => Item {
            number: refusal.number(),
            index: 0,
            next: at,
        },
    }
}

fn counts_with(number: u8, counts: ObjectDescriptionListQueryCounts) -> Quantities
    ensures { result ≡ counts_with number counts }
{
    Quantities {
        number,
        all: counts.all,
        rx_pdo_mappable: counts.rx_pdo_mappable,
        tx_pdo_mappable: counts.tx_pdo_mappable,
        stored_for_device_replacement: counts.stored_for_device_replacement,
        startup_parameters: counts.startup_parameters,
    }
}

impl From<Result<ObjectDescriptionListQueryCounts, Refusal>> for Quantities {
    ghost from_gives = { λ read r. r ≡ quantities_of read };

    fn from(read: Result<ObjectDescriptionListQueryCounts, Refusal>) -> Quantities {
        match read {
            Ok(counts) => counts_with(0, counts),
            Err(refusal) => counts_with(
                refusal.number(),
                ObjectDescriptionListQueryCounts::default(),
            ),
        }
    }
}

pub fn coe_read_quantities(payload: &[u8]) -> Quantities
    ensures { result ≡ quantities_of (quantities_read payload.now) }
{
    read_quantities(payload).into()
}
