// The object list read index by index: a reader holds the finished payload and a position, above `list::item_at`.
ghost use Rattle.std.specs.Prelude.{◌≡◌};
ghost use Rattle.std.specs.Iterator.{item_count};
ghost use Rattle.reads.specs.List.{item_at};
ghost use Rattle.reads.specs.Reader.{at_start, moved_on, coming, Takes};

use crate::list::{Item, item_at};
use wire::refusal::Refusal;

#[derive(Clone, Copy)]
pub struct ListReader<'a> {
    pub payload: &'a [u8],
    pub at: usize,
}

impl<'a> ListReader<'a> {
    // A reader at the payload's start.
    pub fn new(payload: &'a [u8]) -> ListReader<'a>
        ensures { result ≡ at_start payload.entry }
    {
        ListReader { payload, at: 0 }
    }

    // The item at the reader's position; the reader moves on behind it.
    pub fn read(&mut self) -> Result<Item, Refusal>
        ensures { (result ≡ item_at self.old.payload.now self.old.at) × (self.new ≡ moved_on self.old) }
    {
        let item = item_at(self.payload, self.at)?;
        self.at = item.next;
        Ok(item)
    }
}

impl Iterator for ListReader<'_> {
    type Item = u16;

    ghost next_gives = { Takes };

    ghost remaining = { item_count coming };

    #[tactic(auto, using(crate::proofs::Coming::comes))]
    fn next(&mut self) -> Option<u16> {
        let item = self.read().ok()?;
        Some(item.index)
    }
}
