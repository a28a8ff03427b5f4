// The CoE header: the Rust's CoeHeader of coe/headers.rs.
ghost use Rattle.mailbox.specs.Back.{coe_back};
ghost use Rattle.mailbox.specs.Headers.{coe_rows, coe_header_bytes, read_coe_header};

use crate::Header;
use crate::numbers::CoeService;
use wire::refusal::Refusal;

#[derive(Clone, Copy, Debug, PartialEq, Eq)]
pub struct CoeHeader {
    pub service: CoeService,
}

impl Header for CoeHeader {
    // Bytes 6 and 7 of a frame.
    type Bytes = [u8; 2];

    ghost rows = { coe_rows };

    ghost fits = { λ h. Unit };

    ghost bytes = { coe_header_bytes };

    ghost read = { read_coe_header };

    ghost back = { λ h t. coe_back h };

    #[tactic(auto, using(crate::proofs::Packing::packing))]
    fn pack(self) -> [u8; 2] {
        let service = self.service;
        [0, 16 * (u8::from(service) % 16)]
    }

    #[tactic(auto, using(crate::proofs::Unpacking::unpacking), unfolding(crate::specs::Headers::read_coe_header))]
    fn unpack(frame: &[u8]) -> Result<Self, Refusal> {
        if frame.len() < 8 {
            return Err(Refusal::Undecodable);
        }
        let service = CoeService::try_from(wire::byte(frame, 7) / 16)?;
        Ok(CoeHeader { service })
    }
}
