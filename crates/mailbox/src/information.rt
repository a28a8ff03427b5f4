// The SDO information header: the Rust's SdoInfoHeader of coe/headers.rs.
ghost use Rattle.std.specs.Prelude.{◌<◌};
ghost use Rattle.mailbox.specs.Back.{info_back};
ghost use Rattle.mailbox.specs.Headers.{sdo_info_rows, sdo_info_bytes, read_sdo_info};

use crate::Header;
use crate::numbers::SdoInfoOpCode;
use wire::refusal::Refusal;

#[derive(Clone, Copy, Debug, PartialEq, Eq)]
pub struct SdoInfoHeader {
    pub op_code: SdoInfoOpCode,
    pub incomplete: bool,
    pub fragments_left: u16,
}

impl Header for SdoInfoHeader {
    // Bytes 8 to 11 of a frame.
    type Bytes = [u8; 4];

    ghost rows = { sdo_info_rows };

    ghost fits = { λ h. h.fragments_left < 65536 };

    ghost bytes = { sdo_info_bytes };

    ghost read = { read_sdo_info };

    ghost back = { info_back };

    #[tactic(auto, using(crate::proofs::Packing::packing))]
    fn pack(self) -> [u8; 4] {
        let op_code = self.op_code;
        let [left_low, left_high] = self.fragments_left.to_le_bytes();
        [
            u8::from(op_code) % 128 + 128 * u8::from(self.incomplete),
            0,
            left_low,
            left_high,
        ]
    }

    #[tactic(auto, using(crate::proofs::Unpacking::unpacking), unfolding(crate::specs::Headers::read_sdo_info))]
    fn unpack(frame: &[u8]) -> Result<Self, Refusal> {
        if frame.len() < 12 {
            return Err(Refusal::Undecodable);
        }
        let first = wire::byte(frame, 8);
        let op_code = SdoInfoOpCode::try_from(first % 128)?;
        Ok(SdoInfoHeader {
            op_code,
            incomplete: first / 128 == 1,
            fragments_left: wire::word_at(frame, 10),
        })
    }
}
