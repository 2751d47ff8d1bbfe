// What a limiter is asked, and what it replies.
#![tactic(auto)]

use expiry::quantity::Quantities;
use expiry::side::Side;
use greatest::headrooms::Headroom;
use ledger::cells::Instruction;
use parties::entry::Entry;
use parties::level::Level;
use strikes::strike::Strike;

// A party by the numbers of its level and of itself, whether there is such a party or not: a call carries plain numbers, and
// the limiter itself refuses those that it does not know.
#[derive(Clone, Copy, PartialEq, Eq, Debug)]
pub struct PartyNumber {
    pub level: usize,
    pub party: usize,
}

// A limit for the side of a party, each by its number.
#[derive(Clone, Copy, PartialEq, Eq, Debug)]
pub struct NewLimit {
    pub level: usize,
    pub party: usize,
    pub side: usize,
    pub limit: i64,
}

// Numbers in calls are of any size.
#[derive(Clone, Copy, PartialEq, Eq, Debug)]
pub enum Call {
    // One strike more.
    Strike(Strike),
    // One account more.
    Account(Entry),
    // The end of set-up.
    Start,
    Limit(NewLimit),
    Instruct(Instruction),
    // What a party might have to take or hand over.
    Quantities(PartyNumber),
    // The least headroom on an account's path.
    Tightest(usize),
}

// Where the least headroom on a path is, and how much it is.
#[derive(Clone, Copy, PartialEq, Eq, Debug)]
pub struct Tightest {
    pub level: Level,
    pub side: Side,
    pub headroom: Headroom,
}

// What an obeyed call is answered with.
#[derive(Clone, Copy, PartialEq, Eq, Debug)]
pub enum Reply {
    Done,
    Quantities(Quantities),
    Tightest(Tightest),
}
