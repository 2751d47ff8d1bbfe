// The parties that an account belongs to, one at each level.
ghost use Rattle.std.specs.Prelude.{◌≡◌};
ghost use Rattle.parties.specs.Paths.{party_on};

use crate::entry::Entry;
use crate::level::Level;

// An account and who stands behind it.
#[derive(Clone, Copy, PartialEq, Eq, Debug)]
pub struct Path {
    pub account: usize,
    pub entry: Entry,
}

impl Path {
    // The party at a level.
    pub fn party(self, level: Level) -> usize
        ensures { result ≡ party_on self level }
    {
        match level {
            Level::Account => self.account,
            Level::Holder => self.entry.holder,
            Level::Group => self.entry.group,
            Level::Participant => self.entry.participant,
        }
    }
}
