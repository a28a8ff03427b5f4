// The bytes of a reply at which the judgement reads, and how long a reply must at least be: specs/Places.antt, and the table of
// fields in mailbox.
pub(crate) const INDEX: usize = 9;

pub(crate) const SUB_INDEX: usize = 11;

pub(crate) const SDO_LEAST: usize = 12;

pub(crate) const EMERGENCY_LEAST: usize = 16;

pub(crate) const MESSAGE_AT: usize = 8;

pub(crate) const ABORT_LEAST: usize = 16;

pub(crate) const ABORT_CODE: usize = 12;

pub(crate) const DOWNLOAD_LEAST: usize = 16;

pub(crate) const EXPEDITED_AT: u8 = 12;

pub(crate) const NORMAL_LEAST: usize = 16;

pub(crate) const COMPLETE_SIZE: usize = 12;

pub(crate) const NORMAL_AT: u8 = 16;

pub(crate) const SEGMENT_LEAST: usize = 9;

pub(crate) const SEGMENT_AT: u8 = 9;

pub(crate) const FIRST_FRAGMENT_AT: u8 = 14;

pub(crate) const LATER_FRAGMENT_AT: u8 = 12;
