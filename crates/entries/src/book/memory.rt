// The memory that an entry book is made over, and gives back.
ghost use Rattle.std.specs.Prelude.{◌≡◌};
ghost use Rattle.entries.specs.Books.{items, Cleared, Returned};

use super::EntryBook;
use super::search::MOST;
use ledger::books::Holding;

impl EntryBook {
    // An empty book over the memory: one cell for each record, at most 4096.
    pub fn new(memory: Vec<Holding>) -> EntryBook
        ensures { Cleared memory.items result }
    {
        let mut records = memory;
        let end = records.len().min(MOST);
        let (cells, _) = records.split_at_mut(end);
        for e in cells {
            e.held = 0;
        }
        EntryBook { records, live: 0 }
    }

    // The memory, with a record for each held cell.
    pub fn into_memory(self) -> Vec<Holding>
        ensures whole { result.items ≡ items self }
        ensures counts { Returned self result.items }
    {
        let EntryBook { records, live: _ } = self;
        records
    }
}
