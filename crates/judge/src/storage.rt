// What a judged reply leaves in the data buffer.
ghost use Rattle.std.specs.Prelude.{◌≡◌};
ghost use Rattle.judge.specs.Storage.{stored};

use crate::Verdict;

// Lays the chunk that the verdict takes over the buffer, at the sum of the earlier ones.
pub fn store(verdict: Verdict, s: &[u8], buffer: &mut [u8], at: usize)
    ensures { buffer.new ≡ stored verdict s.now at buffer.old }
{
    if let Verdict::Done { from, len }
    | Verdict::Segment { from, len, .. }
    | Verdict::Fragment { from, len, .. } = verdict
    {
        wire::store_chunk(s, from as usize, len as usize, buffer, at);
    }
}
