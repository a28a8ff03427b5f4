// Replays stored cases: a line of standard input names a function and its arguments, and one line is printed for it. What the
// lines mean, and where they come from, is in tools/cases/make, which writes both files. A test program: its lines are compared.
#![tactic(auto)]

mod aborts;
mod replies;
mod requests;
mod values;

use show::Program;
use std::io;

const FILL: u8 = 0xa5;

// What a written frame asks for, and what a reply answers.
#[derive(Clone, Copy)]
pub(crate) enum Service {
    Upload,
    Download,
    Segment,
    List,
}

// What a case calls: a writer, the table of abort codes, the test of a reply, a judge, a read.
enum Kind {
    Frame(Service),
    AbortCode,
    Response,
    Reply(Service),
    Typed,
    Item,
    Quantities,
    List,
}

struct NoSuchCase;

impl TryFrom<u8> for Kind {
    type Error = NoSuchCase;

    fn try_from(number: u8) -> Result<Kind, NoSuchCase> {
        match number {
            0x01 => Ok(Kind::Frame(Service::Upload)),
            0x02 => Ok(Kind::Frame(Service::Download)),
            0x03 => Ok(Kind::Frame(Service::Segment)),
            0x04 => Ok(Kind::Frame(Service::List)),
            0x05 => Ok(Kind::AbortCode),
            0x06 => Ok(Kind::Response),
            0x10 => Ok(Kind::Reply(Service::Upload)),
            0x11 => Ok(Kind::Reply(Service::Download)),
            0x12 => Ok(Kind::Reply(Service::Segment)),
            0x13 => Ok(Kind::Reply(Service::List)),
            0x20 => Ok(Kind::Typed),
            0x21 => Ok(Kind::Item),
            0x22 => Ok(Kind::Quantities),
            0x23 => Ok(Kind::List),
            _ => Err(NoSuchCase),
        }
    }
}

// What a buffer holds before a case writes to it.
pub(crate) fn fill(buffer: &mut [u8]) {
    buffer.fill(FILL);
}

// The buffer that the cases write to.
#[derive(Drop)]
struct Cases {
    buffer: [u8; 131072],
}

impl Program for Cases {
    fn turn(&mut self, rt: &impl Print, case: &[u8]) -> io::Result<()> {
        match Kind::try_from(wire::byte(case, 0)) {
            Ok(Kind::Frame(service)) => requests::frame(rt, service, case, &mut self.buffer),
            Ok(Kind::AbortCode) => aborts::abort_code(rt, case),
            Ok(Kind::Response) => requests::response(rt, case),
            Ok(Kind::Reply(service)) => replies::reply(rt, service, case, &mut self.buffer),
            Ok(Kind::Typed) => values::typed(rt, case),
            Ok(Kind::Item) => values::item(rt, case),
            Ok(Kind::Quantities) => values::quantities(rt, case),
            Ok(Kind::List) => values::list(rt, case),
            Err(NoSuchCase) => print!(rt; "no such case"),
        }
    }
}

fn main(rt: HostRuntime) -> io::Result<()> {
    let mut text = Vec::new(rt.alloc());
    let mut cases = Cases {
        buffer: [0; 131072],
    };
    show::replay(&rt, &mut rt.stdin(), &mut text, &mut cases)
}
