// The judge: the answer, the data buffer's first bytes and the check of all of it, and the byte behind it.
ghost use Rattle.std.specs.Prelude.{◌≤◌};

use crate::{Service, fill};
use std::io;
use transfer::due::Reply;

// How many bytes of a case stand in front of a reply: the last four are the data buffer's length.
fn head(service: Service) -> usize
    ensures { (8 ≤ result) × (result ≤ 10) }
{
    match service {
        Service::Upload | Service::Download => 8,
        Service::Segment => 9,
        Service::List => 10,
    }
}

// What earlier replies stored, of a segment and of a list.
fn earlier(service: Service, case: &[u8]) -> u32 {
    match service {
        Service::Upload | Service::Download => 0,
        Service::Segment => wire::long_at(case, 1),
        Service::List => wire::long_at(case, 2),
    }
}

fn answered(service: Service, case: &[u8]) -> Reply {
    match service {
        Service::Upload => Reply::Upload {
            index: wire::word_at(case, 1),
            sub: wire::byte(case, 3),
        },
        Service::Download => Reply::Download {
            index: wire::word_at(case, 1),
            sub: wire::byte(case, 3),
        },
        Service::Segment => Reply::Segment,
        Service::List => Reply::Fragment {
            begun: wire::byte(case, 1) == 1,
        },
    }
}

pub(crate) fn reply(
    rt: &impl Print,
    service: Service,
    case: &[u8],
    buffer: &mut [u8],
) -> io::Result<()> {
    let head = head(service);
    let n = wire::long_at(case, head - 4);
    let size = n as usize;
    if head <= case.len() && size <= buffer.len() {
        let reply = &case[head..];
        let earlier = earlier(service, case);
        let verdict = answered(service, case).judge(reply, earlier, n);
        fill(buffer);
        judge::store(verdict, reply, &mut buffer[..size], earlier as usize);
        show::answer(rt, judge::answer_of(verdict))?;
        show::looked(rt, &buffer[..size], 64, 8)?;
        print!(rt; " {:02x}", wire::byte(buffer, size))?;
    }
    Ok(())
}
