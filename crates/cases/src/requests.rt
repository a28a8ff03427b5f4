// The writers: the number, the first sixteen bytes behind the buffer's start, its last byte and the byte behind it.
ghost use Rattle.std.specs.Prelude.{◌≤◌};

use crate::{Service, fill};
use mailbox::sub_index::SubIndex;
use services::Request;
use std::io;
use wire::refusal::Refusal;

// How many bytes of a case stand in front of a download's data: the last two are the frame's size.
fn head(service: Service) -> usize
    ensures { (5 ≤ result) × (result ≤ 8) }
{
    match service {
        Service::Upload | Service::Download => 8,
        Service::Segment => 5,
        Service::List => 6,
    }
}

fn written(
    rt: &impl Print,
    wrote: Result<(), Refusal>,
    size: usize,
    buffer: &[u8],
) -> io::Result<()> {
    let number = services::number_of(wrote.map_err(Refusal::number));
    print!(rt; "{number:02x} ")?;
    show::first(rt, buffer, 16)?;
    let last = size
        .checked_sub(1)
        .map_or(0, |last| wire::byte(buffer, last));
    print!(rt; " {last:02x} {:02x}", wire::byte(buffer, size))
}

fn wrote(service: Service, case: &[u8], data: &[u8], frame: &mut [u8]) -> Result<(), Refusal> {
    match service {
        Service::Upload => services::checked::upload_frame(
            wire::byte(case, 1),
            wire::word_at(case, 2),
            wire::byte(case, 4),
            wire::byte(case, 5),
            frame,
        ),
        Service::Download => services::checked::download_frame(
            wire::byte(case, 1),
            wire::word_at(case, 2),
            wire::byte(case, 4),
            wire::byte(case, 5),
            data,
            frame,
        ),
        Service::Segment => {
            services::checked::segment_frame(wire::byte(case, 1), wire::byte(case, 2), frame)
        }
        Service::List => services::checked::list_frame(
            wire::byte(case, 1),
            wire::word_at(case, 2),
            frame,
        ),
    }
}

pub(crate) fn frame(
    rt: &impl Print,
    service: Service,
    case: &[u8],
    buffer: &mut [u8],
) -> io::Result<()> {
    let head = head(service);
    let size = wire::word_at(case, head - 2) as usize;
    if head <= case.len() && size <= buffer.len() {
        fill(buffer);
        let wrote = wrote(service, case, &case[head..], &mut buffer[..size]);
        written(rt, wrote, size, buffer)?;
    }
    Ok(())
}

fn access(case: &[u8]) -> SubIndex {
    if wire::byte(case, 5) == 1 {
        return SubIndex::Complete;
    }
    SubIndex::Index(wire::byte(case, 4))
}

// The stored lines have these numbers: this match makes an enum of them.
fn request(case: &[u8]) -> Request {
    let index = wire::word_at(case, 2);
    match wire::byte(case, 1) {
        1 => Request::Upload {
            index,
            access: access(case),
        },
        2 => Request::Download {
            index,
            access: access(case),
            value: 0,
            len: 1,
        },
        3 => Request::Segment { toggle: false },
        _ => Request::Information { kind: 1 },
    }
}

pub(crate) fn response(rt: &impl Print, case: &[u8]) -> io::Result<()> {
    let answers = request(case).validate_response(wire::word_at(case, 6), wire::byte(case, 8));
    print!(rt; "{:02x}", u8::from(answers))
}
