// What an instruction can do.
ghost use Rattle.ledger.specs.Actions.{Lettered};

use crate::faults::{Fault, Reason};

#[derive(Clone, Copy, PartialEq, Eq, Debug)]
pub enum Action {
    Fill,
    PlaceBuy,
    PlaceSell,
    CancelBuy,
    CancelSell,
    ExecuteBuy,
    ExecuteSell,
    AddCover,
    TakeCover,
}

// The action of a letter.
impl TryFrom<char> for Action {
    type Error = Fault;

    ghost try_from_gives = { Lettered };

    fn try_from(letter: char) -> Result<Action, Fault> {
        match letter {
            'F' => Ok(Action::Fill),
            'B' => Ok(Action::PlaceBuy),
            'S' => Ok(Action::PlaceSell),
            'C' => Ok(Action::CancelBuy),
            'D' => Ok(Action::CancelSell),
            'E' => Ok(Action::ExecuteBuy),
            'G' => Ok(Action::ExecuteSell),
            'K' => Ok(Action::AddCover),
            'U' => Ok(Action::TakeCover),
            _ => Err(Fault::found(Reason::Unknown)),
        }
    }
}
