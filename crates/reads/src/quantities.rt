// The quantities: how many objects each of the five lists has.
ghost use Rattle.std.specs.Prelude.{◌≡◌};
ghost use Rattle.reads.specs.Quantities.{quantities_read};

use wire::refusal::Refusal;

#[derive(Clone, Copy, Debug, Default, PartialEq, Eq)]
pub struct ObjectDescriptionListQueryCounts {
    pub all: u16,
    pub rx_pdo_mappable: u16,
    pub tx_pdo_mappable: u16,
    pub stored_for_device_replacement: u16,
    pub startup_parameters: u16,
}

// The five counts, of the first ten bytes.
#[tactic(auto, using(wire::proofs::Tests::tests), unfolding(crate::specs::Quantities::quantities_read))]
pub fn read_quantities(payload: &[u8]) -> Result<ObjectDescriptionListQueryCounts, Refusal>
    ensures { result ≡ quantities_read payload.now }
{
    if payload.len() < 10 {
        return Err(Refusal::Undecodable);
    }
    Ok(ObjectDescriptionListQueryCounts {
        all: wire::word_at(payload, 0),
        rx_pdo_mappable: wire::word_at(payload, 2),
        tx_pdo_mappable: wire::word_at(payload, 4),
        stored_for_device_replacement: wire::word_at(payload, 6),
        startup_parameters: wire::word_at(payload, 8),
    })
}
