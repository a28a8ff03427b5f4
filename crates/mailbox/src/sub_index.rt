// The sub-index of a request: the Rust's SubIndex of coe/headers.rs.
ghost use Rattle.std.specs.Prelude.{◌≡◌};
ghost use Rattle.mailbox.specs.Headers.{is_complete, sub_index_of};

// Which part of an object is meant: all of it, or one sub-index.
#[derive(Clone, Copy, Debug, PartialEq, Eq)]
pub enum SubIndex {
    Complete,
    Index(u8),
}

impl SubIndex {
    pub fn complete_access(self) -> bool
        ensures { result ≡ is_complete self }
    {
        matches!(self, SubIndex::Complete)
    }

    pub fn sub_index(self) -> u8
        ensures { result ≡ sub_index_of self }
    {
        match self {
            SubIndex::Complete => 1,
            SubIndex::Index(i) => i,
        }
    }
}
