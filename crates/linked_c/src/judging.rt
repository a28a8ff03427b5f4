// The reply judge without desk and budget. Kinds: 1 upload, 3 download, 4 list not begun, 7 segment, 8 list begun.
ghost use Rattle.linked.specs.Judging.{Judges};

use judge::Answer;
use linked::judging;

#[unsafe(no_mangle)]
pub extern "C" fn coe_judge(
    kind: u8,
    index: u16,
    sub: u8,
    earlier: u32,
    reply: &[u8],
    buffer: &mut [u8],
) -> Answer
    ensures { Judges kind index sub earlier reply.now buffer.old result buffer.new }
{
    judging::coe_judge(kind, index, sub, earlier, reply, buffer)
}
