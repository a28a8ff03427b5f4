// The reply judge.
ghost use Rattle.surface.specs.Judge.{JudgesReply};

use judge::Answer;
use linked::judging::coe_judge;

pub fn told(kind: u8, index: u16, sub: u8, earlier: u32, reply: &[u8], buffer: &mut [u8]) -> Answer
    ensures { JudgesReply kind index sub earlier reply.now buffer.old result buffer.new }
{
    coe_judge(kind, index, sub, earlier, reply, buffer)
}
