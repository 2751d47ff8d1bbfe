// How the order layer carries instructions.
ghost use Rattle.std.specs.Prelude.{◌≡◌, ℤ, ◌+ℤ◌, OnOk};
ghost use Rattle.ledger.specs.Actions.{step, Within};
ghost use Rattle.ledger.specs.Cells.{Ranged, standing};
ghost use Rattle.ledger.specs.Layers.{Passed};
ghost use Rattle.ledger.specs.Meanings.{Instructed};
ghost use Rattle.tables.specs.Tables.{at};
ghost use Rattle.orders.specs.Keeping.{layer_meaning, LayerKeeps};
ghost use Rattle.orders.specs.Resting.{order_cell, order_sent, buys_after, sells_after, enough, widened, in_reach, RestIn, Near};
ghost use Rattle.orders.specs.OrderFacts.{order_lawful};

use crate::OrderLayer;
use ledger::actions::Action;
use ledger::cells::{Cell, Instruction, Quote};
use ledger::checks::{REACH, check, is_within};
use ledger::faults::{Fault, Reason};
use ledger::layering::{ask_below, read_below, send_below};
use ledger::ledgers::Ledger;

// What rests above one cell, or would: less than 0 where more is asked for than rests.
#[derive(Clone, Copy)]
struct Rests {
    buys: i64,
    sells: i64,
    ghost near: { (Near buys) × (Near sells) },
}

impl Rests {
    fn is_enough(self) -> bool
        ensures { result ≡ enough self.buys self.sells }
    {
        self.buys >= 0 && self.sells >= 0
    }

    // The quote below with this resting above it.
    fn widen(self, q: Quote) -> Quote
        requires { Ranged q }
        ensures { result ≡ widened q self.buys self.sells }
    {
        let low = q.low - self.sells;
        let high = q.high + self.buys;
        Quote { low, high, ..q }
    }

    // The cell below with this resting above it: its range is not let out of reach.
    fn above(self, below: Cell) -> Cell
        requires { Ranged (standing below) }
        ensures { result ≡ order_cell below self.buys self.sells }
    {
        let wide = self.widen(Quote::from(below));
        Cell {
            low: wide.low.max(-REACH),
            high: wide.high.min(REACH),
            buys: self.buys,
            sells: self.sells,
            ..below
        }
    }
}

// What is sent to the ledger below, if anything is. That the amount is checked stays a clause here and below: a type of
// checked instructions would be a second one beside the public `Instruction`.
fn sent(i: Instruction) -> Option<Instruction>
    requires { Within i.amount }
    ensures { result ≡ order_sent i.action i }
{
    match i.action {
        Action::PlaceBuy | Action::PlaceSell | Action::CancelBuy | Action::CancelSell => None,
        Action::ExecuteBuy => Some(Instruction {
            action: Action::Fill,
            ..i
        }),
        Action::ExecuteSell => Some(Instruction {
            action: Action::Fill,
            amount: -i.amount,
            ..i
        }),
        _ => Some(i),
    }
}

fn in_reach(q: Quote) -> Result<Quote, Fault>
    ensures { result ≡ in_reach q }
{
    if !is_within(q.low) || !is_within(q.high) {
        return Err(Fault::found(Reason::Reach));
    }
    Ok(q)
}

impl<L: Ledger> OrderLayer<L> {
    fn rests(&self, account: usize, series: usize) -> Rests
        ensures buys { (result.buys ≡ at self.now.buys account series) × (RestIn result.buys) }
        ensures sells { (result.sells ≡ at self.now.sells account series) × (RestIn result.sells) }
    {
        Rests {
            buys: self.buys.at(account, series),
            sells: self.sells.at(account, series),
        }
    }

    // What would rest after the instruction.
    fn rests_after(&self, i: Instruction) -> Rests
        requires { Within i.amount }
        ensures buys { result.buys ≡ buys_after self.now.buys i }
        ensures sells { result.sells ≡ sells_after self.now.sells i }
    {
        let mut rests = self.rests(i.account, i.series);
        match i.action {
            Action::PlaceBuy => rests.buys += i.amount,
            Action::PlaceSell => rests.sells += i.amount,
            Action::CancelBuy | Action::ExecuteBuy => rests.buys -= i.amount,
            Action::CancelSell | Action::ExecuteSell => rests.sells -= i.amount,
            _ => (),
        }
        rests
    }
}

impl<L: Ledger> Ledger for OrderLayer<L> {
    ghost meaning = { layer_meaning L.Ledger.meaning };

    ghost keeps = { LayerKeeps L.Ledger.meaning L.Ledger.keeps };

    ghost lawful = { λ x. order_lawful _ (L.Ledger.lawful x.below) x.buys x.sells x.buys_rest x.sells_rest };

    ghost still = { λ x. (L.Ledger.still x.below, λ h. h) };

    ghost onward = { λ x y z p q. (L.Ledger.onward x.below y.below z.below p.0 q.0, λ h. q.1 (p.1 h)) };

    fn accounts(&self) -> usize {
        self.below.accounts()
    }

    fn unused(&self) -> bool {
        self.below.unused() && self.buys.is_zero() && self.sells.is_zero()
    }

    fn cell(&self, account: usize, series: usize) -> Cell {
        self.rests(account, series)
            .above(read_below(&self.below, account, series))
    }

    fn quote(&self, i: Instruction) -> Result<Quote, Fault> {
        check(self.accounts(), i)?;
        let rests = self.rests_after(i);
        if !rests.is_enough() {
            return Err(Fault::found(Reason::Rest));
        }
        let below = ask_below(&self.below, i.account, i.series, sent(i))?;
        in_reach(rests.widen(below))
    }

    // Obeyed, the ledger below has carried out what was sent down, and nothing else has happened to it.
    fn instruct(&mut self, i: Instruction) -> Result<Quote, Fault>
        ensures carried { Instructed (layer_meaning L.Ledger.meaning) self.old self.new i result }
        ensures kept { LayerKeeps L.Ledger.meaning L.Ledger.keeps self.old self.new }
        ensures sent { OnOk result (Passed L.Ledger.meaning self.old.below self.new.below (order_sent i.action i)) }
    {
        let quote = self.quote(i)?;
        let rests = self.rests_after(i);
        send_below(&mut self.below, sent(i));
        self.buys.put(i.account, i.series, rests.buys);
        self.sells.put(i.account, i.series, rests.sells);
        Ok(quote)
    }
}
