// The reads of a finished payload.
use reads::list::item_at;
use reads::quantities::read_quantities;
use reads::typed::read;
use reads::whole::read_list;
use std::io;
use wire::refusal::Refusal;

// The number of a read, and the value beside it: 0 where it was refused.
fn valued(rt: &impl Print, read: Result<u64, Refusal>, width: usize) -> io::Result<()> {
    let (number, value) = match read {
        Ok(value) => (0, value),
        Err(refusal) => (refusal.number(), 0),
    };
    print!(rt; "{number:02x} {value:0width$x}")
}

// A signed value is printed as its 32 bits. The stored lines have these numbers, and an enum of types would only repeat the arms.
fn bits(payload: &[u8], kind: u8) -> Result<u32, Refusal> {
    match kind {
        0x01 => read::<u8>(payload).map(u32::from),
        0x02 => read::<u16>(payload).map(u32::from),
        0x04 => read::<u32>(payload),
        0x81 => read::<i8>(payload).map(|value| i32::from(value).cast_unsigned()),
        0x82 => read::<i16>(payload).map(|value| i32::from(value).cast_unsigned()),
        _ => read::<i32>(payload).map(|value| value.cast_unsigned()),
    }
}

pub(crate) fn typed(rt: &impl Print, case: &[u8]) -> io::Result<()> {
    if 2 <= case.len() {
        valued(rt, bits(&case[2..], case[1]).map(u64::from), 8)?;
    }
    Ok(())
}

pub(crate) fn item(rt: &impl Print, case: &[u8]) -> io::Result<()> {
    if 9 <= case.len() {
        let at = wire::eight_at(case, 1);
        let read = item_at(&case[9..], at as usize);
        valued(rt, read.map(|item| u64::from(item.index)), 4)?;
        let next = read.map_or(at, |item| item.next as u64);
        print!(rt; " {next:016x}")?;
    }
    Ok(())
}

pub(crate) fn quantities(rt: &impl Print, case: &[u8]) -> io::Result<()> {
    if 1 <= case.len() {
        let read = read_quantities(&case[1..]);
        valued(rt, read.map(|counts| u64::from(counts.all)), 4)?;
        let counts = read.unwrap_or_default();
        for count in [
            counts.rx_pdo_mappable,
            counts.tx_pdo_mappable,
            counts.stored_for_device_replacement,
            counts.startup_parameters,
        ] {
            print!(rt; " {count:04x}")?;
        }
    }
    Ok(())
}

// All places are printed, with those that were not lent.
fn list_into(rt: &impl Print, case: &[u8], items: &mut [u16]) -> io::Result<()> {
    let room = wire::byte(case, 1) as usize;
    if 2 <= case.len() && room <= items.len() {
        let read = read_list(&case[2..], &mut items[..room]);
        valued(rt, read.map(|count| count as u64), 4)?;
        for item in items {
            print!(rt; " {item:04x}")?;
        }
    }
    Ok(())
}

pub(crate) fn list(rt: &impl Print, case: &[u8]) -> io::Result<()> {
    list_into(rt, case, &mut [0xa5a5; 8])
}
