// The header of a segment: the Rust's SdoHeaderSegmented of coe/headers.rs.
ghost use Rattle.std.specs.Prelude.{◌<◌};
ghost use Rattle.mailbox.specs.Back.{segmented_back};
ghost use Rattle.mailbox.specs.Headers.{segmented_rows, segmented_bytes, read_segmented};

use crate::Header;
use crate::numbers::CoeCommand;
use wire::refusal::Refusal;

#[derive(Clone, Copy, Debug, PartialEq, Eq)]
pub struct SdoHeaderSegmented {
    pub is_last_segment: bool,
    pub segment_data_size: u8,
    pub toggle: bool,
    pub command: CoeCommand,
}

impl Header for SdoHeaderSegmented {
    // Byte 8 of a frame.
    type Bytes = [u8; 1];

    ghost rows = { segmented_rows };

    ghost fits = { λ h. h.segment_data_size < 8 };

    ghost bytes = { segmented_bytes };

    ghost read = { read_segmented };

    ghost back = { segmented_back };

    #[tactic(auto, using(crate::proofs::Packing::packing))]
    fn pack(self) -> [u8; 1] {
        let command = self.command;
        [
            u8::from(self.is_last_segment)
                + 2 * (self.segment_data_size % 8)
                + 16 * u8::from(self.toggle)
                + 32 * (u8::from(command) % 8),
        ]
    }

    #[tactic(auto, using(crate::proofs::Unpacking::unpacking), unfolding(crate::specs::Headers::read_segmented))]
    fn unpack(frame: &[u8]) -> Result<Self, Refusal> {
        if frame.len() < 9 {
            return Err(Refusal::Undecodable);
        }
        let first = wire::byte(frame, 8);
        let command = CoeCommand::try_from(first / 32)?;
        Ok(SdoHeaderSegmented {
            is_last_segment: first % 2 == 1,
            segment_data_size: first / 2 % 8,
            toggle: first / 16 % 2 == 1,
            command,
        })
    }
}
