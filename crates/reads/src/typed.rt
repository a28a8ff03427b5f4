// Typed reads: the first 1, 2 or 4 bytes of a payload, unsigned or two's complement.
ghost use Rattle.std.specs.Prelude.{◌≡◌, refl, ℕ, ◌^◌, ◌<◌};
ghost use Rattle.wire.specs.Bytes.{value, window};
ghost use Rattle.reads.specs.Signed.{signed_of, bits_of};
ghost use Rattle.reads.specs.Typed.{integer_read, unsigned_of};
ghost use Rattle.reads.specs.Integers.{bits_signed};

use wire::refusal::Refusal;

// A number of so many bytes.
pub trait Integer: Sized {
    ghost BYTES: { ℕ };

    const BYTES: usize;

    // The number that bits are, and the bits that it is.
    ghost of_bits: { ℕ → Self };

    ghost to_bits: { Self → ℕ };

    // The number at the front of a payload; bytes that are not there count as 0.
    fn front(payload: &[u8]) -> Self
        ensures { result ≡ of_bits (value (window BYTES payload.now 0)) };

    // No two numbers have the same bits.
    ghost back: { (bits : ℕ) → bits < 256 ^ BYTES → to_bits (of_bits bits) ≡ bits };
}

impl Integer for u8 {
    ghost BYTES = { 1 };

    const BYTES: usize = 1;

    ghost of_bits = { unsigned_of };

    ghost to_bits = { unsigned_of };

    ghost back = { λ bits fit. refl };

    fn front(payload: &[u8]) -> u8 {
        wire::byte(payload, 0)
    }
}

impl Integer for u16 {
    ghost BYTES = { 2 };

    const BYTES: usize = 2;

    ghost of_bits = { unsigned_of };

    ghost to_bits = { unsigned_of };

    ghost back = { λ bits fit. refl };

    fn front(payload: &[u8]) -> u16 {
        wire::word_at(payload, 0)
    }
}

impl Integer for u32 {
    ghost BYTES = { 4 };

    const BYTES: usize = 4;

    ghost of_bits = { unsigned_of };

    ghost to_bits = { unsigned_of };

    ghost back = { λ bits fit. refl };

    fn front(payload: &[u8]) -> u32 {
        wire::long_at(payload, 0)
    }
}

impl Integer for i8 {
    ghost BYTES = { 1 };

    const BYTES: usize = 1;

    ghost of_bits = { signed_of 1 };

    ghost to_bits = { bits_of 1 };

    ghost back = { bits_signed 1 };

    #[tactic(auto, using(crate::proofs::Width::casts))]
    fn front(payload: &[u8]) -> i8 {
        u8::front(payload).cast_signed()
    }
}

impl Integer for i16 {
    ghost BYTES = { 2 };

    const BYTES: usize = 2;

    ghost of_bits = { signed_of 2 };

    ghost to_bits = { bits_of 2 };

    ghost back = { bits_signed 2 };

    #[tactic(auto, using(crate::proofs::Width::casts))]
    fn front(payload: &[u8]) -> i16 {
        u16::front(payload).cast_signed()
    }
}

impl Integer for i32 {
    ghost BYTES = { 4 };

    const BYTES: usize = 4;

    ghost of_bits = { signed_of 4 };

    ghost to_bits = { bits_of 4 };

    ghost back = { bits_signed 4 };

    #[tactic(auto, using(crate::proofs::Width::casts))]
    fn front(payload: &[u8]) -> i32 {
        u32::front(payload).cast_signed()
    }
}

// The number of the first bytes of a payload.
#[tactic(auto, using(crate::proofs::AnyWidth::integers))]
pub fn read<T: Integer>(payload: &[u8]) -> Result<T, Refusal>
    ensures { result ≡ integer_read T.BYTES T.of_bits payload.now }
{
    if payload.len() < T::BYTES {
        return Err(Refusal::Undecodable);
    }
    Ok(T::front(payload))
}
