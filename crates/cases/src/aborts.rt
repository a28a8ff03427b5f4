// The abort codes: the number of the code that a number gives, and whether the list has it.
use mailbox::abort_code::CoeAbortCode;
use std::io;

pub(crate) fn abort_code(rt: &impl Print, case: &[u8]) -> io::Result<()> {
    let code = CoeAbortCode::from(wire::long_at(case, 1));
    let known = match code {
        CoeAbortCode::Unknown(_) => "Unknown",
        _ => "listed",
    };
    print!(rt; "{:08x} {known}", u32::from(code))
}
