// What a layer asks of the ledger below it.
ghost use Rattle.std.specs.Prelude.{◌≡◌, ℕ, IfOk};
ghost use Rattle.ledger.specs.Cells.{Ranged, standing};
ghost use Rattle.ledger.specs.Layers.{asked, Passed};

use crate::cells::{Cell, Instruction, Quote};
use crate::faults::Fault;
use crate::ledgers::Ledger;

// A cell below, in its range.
pub fn read_below<L: Ledger>(below: &L, account: usize, series: usize) -> Cell
    ensures value { result ≡ (L.Ledger.meaning below.now).cell account series }
    ensures ranged { Ranged (standing result) }
{
    below.cell(account, series)
}

// The quote of what is sent below, or the cell as it stands there where nothing is.
pub fn ask_below<L: Ledger>(
    below: &L,
    account: usize,
    series: usize,
    down: Option<Instruction>,
) -> Result<Quote, Fault>
    ensures answer { result ≡ asked (L.Ledger.meaning below.now) account series down }
    ensures ranged { IfOk result (λ q. Ranged q) }
{
    match down {
        None => Ok(Quote::from(read_below(below, account, series))),
        Some(j) => below.quote(j).map_err(Fault::deeper),
    }
}

// Carries out what is sent below, if anything is.
pub fn send_below<L: Ledger>(below: &mut L, down: Option<Instruction>)
    ensures passed { Passed L.Ledger.meaning below.old below.new down }
    ensures kept { L.Ledger.keeps below.old below.new }
{
    // The answer is the quote's, which the layer has asked for before.
    if let Some(j) = down {
        let _ = below.instruct(j);
    }
}
