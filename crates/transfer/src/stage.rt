// What is due of a transfer, by its number. The record keeps the number: a host lends it, as coe_desk of include/coe_desk.h, and may lend
// any byte.
ghost use Rattle.std.specs.Prelude.{◌≡◌};
ghost use Rattle.transfer.specs.Stage.{stage_of};

#[derive(Clone, Copy, Debug, PartialEq, Eq)]
pub(crate) enum Stage {
    FirstRequest = 0,
    FirstReply = 1,
    SegmentRequest = 2,
    SegmentReply = 3,
    LaterFragment = 4,
}

impl From<u8> for Stage {
    ghost from_gives = { λ n stage. stage ≡ stage_of n };

    #[tactic(auto, using(wire::proofs::Tests::tests))]
    fn from(n: u8) -> Stage {
        match n {
            0 => Stage::FirstRequest,
            1 => Stage::FirstReply,
            2 => Stage::SegmentRequest,
            3 => Stage::SegmentReply,
            _ => Stage::LaterFragment,
        }
    }
}
