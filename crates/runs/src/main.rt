// Replays stored call sequences of the desk: a line of standard input is a call, and one line is printed for it. What the lines
// mean, and where they come from, is in tools/runs/make, which writes both files. A test program: its lines are compared.
#![tactic(auto)]

mod calls;

use calls::Standing;
use show::Program;
use std::io;

// What a line calls: of the desk, or of the host's memory.
enum Call {
    Nothing,
    Fresh,
    Enter,
    Send,
    Receive,
    Leave,
    Lay,
    Look,
}

struct NoSuchCall;

impl TryFrom<u8> for Call {
    type Error = NoSuchCall;

    fn try_from(number: u8) -> Result<Call, NoSuchCall> {
        match number {
            0x00 => Ok(Call::Nothing),
            0x01 => Ok(Call::Fresh),
            0x02 => Ok(Call::Enter),
            0x03 => Ok(Call::Send),
            0x04 => Ok(Call::Receive),
            0x05 => Ok(Call::Leave),
            0x06 => Ok(Call::Lay),
            0x07 => Ok(Call::Look),
            _ => Err(NoSuchCall),
        }
    }
}

// The desk, and the host's memory, of which every lent buffer is a part: one of N = 131,071, and frame buffers behind it.
#[derive(Drop)]
struct Runs {
    standing: Standing,
    memory: [u8; 135168],
}

impl Program for Runs {
    fn turn(&mut self, rt: &impl Print, call: &[u8]) -> io::Result<()> {
        let before = self.standing;
        let memory = &mut self.memory;
        self.standing = match Call::try_from(wire::byte(call, 0)) {
            Ok(Call::Fresh) => calls::fresh(rt, call)?,
            Ok(Call::Enter) => calls::enter(rt, before, call)?,
            Ok(Call::Send) => calls::send(rt, before, call, memory)?,
            Ok(Call::Receive) => calls::receive(rt, before, call, memory)?,
            Ok(Call::Leave) => calls::leave(rt, before, call)?,
            Ok(Call::Lay) => return calls::lay(rt, call, memory),
            Ok(Call::Look) => return calls::look(rt, memory),
            Ok(Call::Nothing) => return Ok(()),
            Err(NoSuchCall) => return print!(rt; "no such call"),
        };
        Ok(())
    }
}

fn main(rt: HostRuntime) -> io::Result<()> {
    let mut text = Vec::new(rt.alloc());
    let mut runs = Runs {
        standing: calls::first(),
        memory: [0; 135168],
    };
    show::replay(&rt, &mut rt.stdin(), &mut text, &mut runs)
}
