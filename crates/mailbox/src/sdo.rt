// The SDO header: the Rust's SdoHeader of coe/headers.rs.
ghost use Rattle.std.specs.Prelude.{◌<◌};
ghost use Rattle.mailbox.specs.Back.{sdo_back};
ghost use Rattle.mailbox.specs.Headers.{sdo_rows, sdo_header_bytes, read_sdo_header};

use crate::Header;
use crate::numbers::CoeCommand;
use wire::refusal::Refusal;

#[derive(Clone, Copy, Debug, PartialEq, Eq)]
pub struct SdoHeader {
    pub size_indicator: bool,
    pub expedited_transfer: bool,
    pub size: u8,
    pub complete_access: bool,
    pub command: CoeCommand,
    pub index: u16,
    pub sub_index: u8,
}

impl Header for SdoHeader {
    // Bytes 8 to 11 of a frame.
    type Bytes = [u8; 4];

    ghost rows = { sdo_rows };

    ghost fits = { λ h. (h.size < 4) × (h.index < 65536) × (h.sub_index < 256) };

    ghost bytes = { sdo_header_bytes };

    ghost read = { read_sdo_header };

    ghost back = { λ h t. sdo_back h t.0 t.1 t.2 };

    #[tactic(auto, using(crate::proofs::Packing::packing))]
    fn pack(self) -> [u8; 4] {
        let command = self.command;
        let [index_low, index_high] = self.index.to_le_bytes();
        [
            u8::from(self.size_indicator)
                + 2 * u8::from(self.expedited_transfer)
                + 4 * (self.size % 4)
                + 16 * u8::from(self.complete_access)
                + 32 * (u8::from(command) % 8),
            index_low,
            index_high,
            self.sub_index,
        ]
    }

    #[tactic(auto, using(crate::proofs::Unpacking::unpacking), unfolding(crate::specs::Headers::read_sdo_header))]
    fn unpack(frame: &[u8]) -> Result<Self, Refusal> {
        if frame.len() < 12 {
            return Err(Refusal::Undecodable);
        }
        let first = wire::byte(frame, 8);
        let command = CoeCommand::try_from(first / 32)?;
        Ok(SdoHeader {
            size_indicator: first % 2 == 1,
            expedited_transfer: first / 2 % 2 == 1,
            size: first / 4 % 4,
            complete_access: first / 16 % 2 == 1,
            command,
            index: wire::word_at(frame, 9),
            sub_index: wire::byte(frame, 11),
        })
    }
}
