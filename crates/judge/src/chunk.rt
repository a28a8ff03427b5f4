// A chunk: whether its bytes are there, and whether it fits behind the earlier ones.
ghost use Rattle.std.specs.Prelude.{◌≡◌};
ghost use Rattle.judge.specs.Chunk.{lacking, chunk_at};

// Whether a reply of `size` bytes lacks some of the len bytes from a place on.
#[tactic(auto, using(wire::proofs::Tests::tests), unfolding(crate::specs::Chunk::lacking))]
pub(crate) fn lacks(size: usize, from: u8, len: u16) -> bool
    ensures { result ≡ lacking size from len }
{
    len != 0 && size < (from as usize) + (len as usize)
}

// The chunk of len bytes from a place on, behind the earlier ones in a buffer of n: the sum of those and this one.
#[tactic(auto, using(wire::proofs::Tests::tests), unfolding(crate::specs::Chunk::chunk_at))]
pub(crate) fn chunk_at(size: usize, from: u8, len: u16, earlier: u32, n: u32) -> Option<u32>
    ensures { result ≡ chunk_at size from len earlier n }
{
    if lacks(size, from, len) {
        return None;
    }
    let sum = earlier.checked_add(len as u32)?;
    if n < sum {
        return None;
    }
    Some(sum)
}
