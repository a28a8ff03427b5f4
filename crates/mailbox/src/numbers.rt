// The numbers that the standard lists, each with its name, and back: document 01's "Listed numbers".
ghost use Rattle.std.specs.Prelude.{◌≡◌};
ghost use Rattle.mailbox.specs.Numbers.{priority_number, priority_of, type_number, type_of, service_number, service_of, command_number, command_of, operation_number, operation_of};

use wire::refusal::Refusal;

#[derive(Clone, Copy, Debug, PartialEq, Eq)]
pub enum Priority {
    Lowest = 0x00,
    Low = 0x01,
    High = 0x02,
    Highest = 0x03,
}

impl From<Priority> for u8 {
    ghost from_gives = { λ p n. n ≡ priority_number p };

    fn from(priority: Priority) -> u8 {
        priority as u8
    }
}

// Every number has a priority: the field is two bits wide.
impl From<u8> for Priority {
    ghost from_gives = { λ n p. p ≡ priority_of n };

    #[tactic(auto, using(crate::proofs::Listed::looking), unfolding(crate::specs::Numbers::priority_of))]
    fn from(n: u8) -> Priority {
        let cut = n % 4;
        match cut {
            0x00 => Priority::Lowest,
            0x01 => Priority::Low,
            0x02 => Priority::High,
            _ => Priority::Highest,
        }
    }
}

#[derive(Clone, Copy, Debug, PartialEq, Eq)]
pub enum MailboxType {
    // Error.
    Err = 0x00,
    // ADS over EtherCAT.
    Aoe = 0x01,
    // Ethernet over EtherCAT.
    Eoe = 0x02,
    // CAN application protocol over EtherCAT.
    Coe = 0x03,
    // File access over EtherCAT.
    Foe = 0x04,
    // Servo profile over EtherCAT.
    Soe = 0x05,
    VendorSpecific = 0x0f,
}

impl From<MailboxType> for u8 {
    ghost from_gives = { λ t n. n ≡ type_number t };

    fn from(mailbox_type: MailboxType) -> u8 {
        mailbox_type as u8
    }
}

impl TryFrom<u8> for MailboxType {
    type Error = Refusal;

    ghost try_from_gives = { λ n r. r ≡ type_of n };

    #[tactic(auto, using(crate::proofs::Listed::looking), unfolding(crate::specs::Numbers::type_of))]
    fn try_from(n: u8) -> Result<Self, Refusal> {
        match n {
            0x00 => Ok(MailboxType::Err),
            0x01 => Ok(MailboxType::Aoe),
            0x02 => Ok(MailboxType::Eoe),
            0x03 => Ok(MailboxType::Coe),
            0x04 => Ok(MailboxType::Foe),
            0x05 => Ok(MailboxType::Soe),
            0x0f => Ok(MailboxType::VendorSpecific),
            _ => Err(Refusal::Undecodable),
        }
    }
}

#[derive(Clone, Copy, Debug, PartialEq, Eq)]
pub enum CoeService {
    Emergency = 0x01,
    SdoRequest = 0x02,
    SdoResponse = 0x03,
    TxPdo = 0x04,
    RxPdo = 0x05,
    TxPdoRemoteRequest = 0x06,
    RxPdoRemoteRequest = 0x07,
    SdoInformation = 0x08,
}

impl From<CoeService> for u8 {
    ghost from_gives = { λ v n. n ≡ service_number v };

    fn from(service: CoeService) -> u8 {
        service as u8
    }
}

impl TryFrom<u8> for CoeService {
    type Error = Refusal;

    ghost try_from_gives = { λ n r. r ≡ service_of n };

    #[tactic(auto, using(crate::proofs::Listed::looking), unfolding(crate::specs::Numbers::service_of))]
    fn try_from(n: u8) -> Result<Self, Refusal> {
        match n {
            0x01 => Ok(CoeService::Emergency),
            0x02 => Ok(CoeService::SdoRequest),
            0x03 => Ok(CoeService::SdoResponse),
            0x04 => Ok(CoeService::TxPdo),
            0x05 => Ok(CoeService::RxPdo),
            0x06 => Ok(CoeService::TxPdoRemoteRequest),
            0x07 => Ok(CoeService::RxPdoRemoteRequest),
            0x08 => Ok(CoeService::SdoInformation),
            _ => Err(Refusal::Undecodable),
        }
    }
}

#[derive(Clone, Copy, Debug, PartialEq, Eq)]
pub enum CoeCommand {
    // CiA 301 gives 0 to a segment reply; the Rust does not list it.
    Segment = 0x00,
    Download = 0x01,
    Upload = 0x02,
    UploadSegment = 0x03,
    Abort = 0x04,
}

impl From<CoeCommand> for u8 {
    ghost from_gives = { λ x n. n ≡ command_number x };

    fn from(command: CoeCommand) -> u8 {
        command as u8
    }
}

impl TryFrom<u8> for CoeCommand {
    type Error = Refusal;

    ghost try_from_gives = { λ n r. r ≡ command_of n };

    #[tactic(auto, using(crate::proofs::Listed::looking), unfolding(crate::specs::Numbers::command_of))]
    fn try_from(n: u8) -> Result<Self, Refusal> {
        match n {
            0x00 => Ok(CoeCommand::Segment),
            0x01 => Ok(CoeCommand::Download),
            0x02 => Ok(CoeCommand::Upload),
            0x03 => Ok(CoeCommand::UploadSegment),
            0x04 => Ok(CoeCommand::Abort),
            _ => Err(Refusal::Undecodable),
        }
    }
}

#[derive(Clone, Copy, Debug, PartialEq, Eq)]
pub enum SdoInfoOpCode {
    GetObjectDescriptionListRequest = 0x01,
    GetObjectDescriptionListResponse = 0x02,
    GetObjectDescriptionRequest = 0x03,
    GetObjectDescriptionResponse = 0x04,
    GetEntryDescriptionRequest = 0x05,
    GetEntryDescriptionResponse = 0x06,
    SdoInfoErrorRequest = 0x07,
}

impl From<SdoInfoOpCode> for u8 {
    ghost from_gives = { λ o n. n ≡ operation_number o };

    fn from(op_code: SdoInfoOpCode) -> u8 {
        op_code as u8
    }
}

impl TryFrom<u8> for SdoInfoOpCode {
    type Error = Refusal;

    ghost try_from_gives = { λ n r. r ≡ operation_of n };

    #[tactic(auto, using(crate::proofs::Listed::looking), unfolding(crate::specs::Numbers::operation_of))]
    fn try_from(n: u8) -> Result<Self, Refusal> {
        match n {
            0x01 => Ok(SdoInfoOpCode::GetObjectDescriptionListRequest),
            0x02 => Ok(SdoInfoOpCode::GetObjectDescriptionListResponse),
            0x03 => Ok(SdoInfoOpCode::GetObjectDescriptionRequest),
            0x04 => Ok(SdoInfoOpCode::GetObjectDescriptionResponse),
            0x05 => Ok(SdoInfoOpCode::GetEntryDescriptionRequest),
            0x06 => Ok(SdoInfoOpCode::GetEntryDescriptionResponse),
            0x07 => Ok(SdoInfoOpCode::SdoInfoErrorRequest),
            _ => Err(Refusal::Undecodable),
        }
    }
}
