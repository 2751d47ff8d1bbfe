// A directory is made empty, and extended by one account at a time.
ghost use Rattle.std.specs.Prelude.{◌≡◌, ℕ, ◌&&◌, [], length, Decides, nat_lt};
ghost use Rattle.parties.specs.Directories.{entries_of, belongs, numbered, clashes, Clashes, enrolled, Enrolled, Grouped, PartyAt, PathAt};

use crate::Directory;
use crate::entry::Entry;
use crate::level::Level;
use crate::path::Path;
use arrayvec::ArrayVec;
use ledger::checks::WIDTH;
use ledger::faults::{Fault, Reason};

fn is_numbered(entry: Entry) -> bool
    ensures { result ≡ numbered entry }
{
    entry.holder < WIDTH && entry.group < WIDTH && entry.participant < WIDTH
}

impl Directory {
    // A directory with no account.
    pub fn new() -> Directory
        ensures { entries_of result ≡ [] }
    {
        Directory {
            entries: ArrayVec::new(),
        }
    }

    pub fn count(&self) -> usize
        ensures { result ≡ length (entries_of self.now) }
    {
        self.entries.len()
    }

    // The path of an account; none for an account that was not added.
    pub fn path(&self, account: usize) -> Option<Path>
        ensures { PathAt (entries_of self.now) account result }
    {
        let entry = *self.entries.get(account)?;
        Some(Path { account, entry })
    }

    // The party of an account at a level; none for an account that was not added.
    pub fn party(&self, level: Level, account: usize) -> Option<usize>
        ensures { PartyAt (entries_of self.now) level account result }
    {
        let path = self.path(account)?;
        Some(path.party(level))
    }

    // Whether the account was added and is the party's.
    pub fn belongs(&self, level: Level, party: usize, account: usize) -> bool
        ensures { result ≡ (nat_lt account (length (entries_of self.now)) && belongs (entries_of self.now) level party account) }
    {
        self.party(level, account) == Some(party)
    }

    // Whether the holder has an account in another group.
    fn has_clash(&self, entry: Entry) -> bool
        ensures value { result ≡ clashes (entries_of self.now) entry }
        ensures tells { Decides result (Clashes (entries_of self.now) entry) }
    {
        self.entries.iter().any(|known| known.holder == entry.holder && known.group != entry.group)
    }

    // Adds an account, where at most so many are taken.
    pub fn add(&mut self, taken: usize, entry: Entry) -> Result<(), Fault>
        ensures answer { result ≡ enrolled taken (entries_of self.old) entry }
        ensures left { Enrolled self.old self.new entry result }
        ensures told { Grouped (entries_of self.old) entry result }
    {
        if self.entries.len() >= taken || self.entries.is_full() {
            return Err(Fault::found(Reason::DirectoryFull));
        }
        if !is_numbered(entry) {
            return Err(Fault::found(Reason::Unknown));
        }
        if self.has_clash(entry) {
            return Err(Fault::found(Reason::GroupClash));
        }
        self.entries.push(entry);
        Ok(())
    }
}
