// How the cover layer carries instructions.
ghost use Rattle.std.specs.Prelude.{◌≡◌, OnOk};
ghost use Rattle.ledger.specs.Actions.{Within};
ghost use Rattle.ledger.specs.Cells.{Ranged};
ghost use Rattle.ledger.specs.Layers.{Passed};
ghost use Rattle.ledger.specs.Meanings.{Instructed};
ghost use Rattle.cover.specs.Covering.{with_cover, cover_quote, is_cover, cover_sent, fitting, cover_after, CoverIn};
ghost use Rattle.cover.specs.Keeping.{layer_meaning, LayerKeeps};
ghost use Rattle.cover.specs.CoverFacts.{cover_lawful};

use crate::CoverLayer;
use ledger::actions::Action;
use ledger::cells::{Cell, Instruction, Quote};
use ledger::checks::{REACH, check};
use ledger::faults::{Fault, Reason};
use ledger::layering::{ask_below, read_below, send_below};
use ledger::ledgers::Ledger;

// The count with that much cover.
#[tactic(auto, unfolding(crate::specs::Covering::with_cover))]
fn with_cover(cover: i64, n: i64) -> i64
    requires { (Within n) × (CoverIn cover) }
    ensures { result ≡ with_cover cover n }
{
    if n < 0 { (n + cover).min(0) } else { n }
}

// The quote below with that much cover.
fn covered(q: Quote, cover: i64) -> Quote
    requires { (Ranged q) × (CoverIn cover) }
    ensures { result ≡ cover_quote q cover }
{
    Quote {
        low: with_cover(cover, q.low),
        high: with_cover(cover, q.high),
        ..q
    }
}

// Whether the action is the layer's own.
fn is_cover(action: Action) -> bool
    ensures { result ≡ is_cover action }
{
    matches!(action, Action::AddCover | Action::TakeCover)
}

// Cover is for calls, which have even series.
fn is_fitting(i: Instruction) -> bool
    ensures { result ≡ fitting i.action i.series }
{
    !is_cover(i.action) || i.series % 2 == 0
}

// What is sent to the ledger below, if anything is.
fn sent(i: Instruction) -> Option<Instruction>
    ensures { result ≡ cover_sent i.action i }
{
    if is_cover(i.action) { None } else { Some(i) }
}

impl<L: Ledger> CoverLayer<L> {
    // The cover that would be left: less than 0 where more is taken than is covered. That the amount is checked stays a
    // clause: a type of checked instructions would be a second one beside the public `Instruction`.
    fn cover_after(&self, i: Instruction) -> i64
        requires { Within i.amount }
        ensures { result ≡ cover_after self.now.cover i }
    {
        let cover = self.cover.at(i.account, i.series);
        match i.action {
            Action::AddCover => cover + i.amount,
            Action::TakeCover => cover - i.amount,
            _ => cover,
        }
    }
}

impl<L: Ledger> Ledger for CoverLayer<L> {
    ghost meaning = { layer_meaning L.Ledger.meaning };

    ghost keeps = { LayerKeeps L.Ledger.keeps };

    ghost lawful = { λ x. cover_lawful _ (L.Ledger.lawful x.below) x.cover x.cover_kept };

    ghost still = { λ x. L.Ledger.still x.below };

    ghost onward = { λ x y z p q. L.Ledger.onward x.below y.below z.below p q };

    fn accounts(&self) -> usize {
        self.below.accounts()
    }

    fn unused(&self) -> bool {
        self.below.unused() && self.cover.is_zero()
    }

    fn cell(&self, account: usize, series: usize) -> Cell {
        let below = read_below(&self.below, account, series);
        let cover = self.cover.at(account, series);
        let quote = covered(Quote::from(below), cover);
        Cell {
            low: quote.low,
            high: quote.high,
            cover,
            ..below
        }
    }

    fn quote(&self, i: Instruction) -> Result<Quote, Fault> {
        check(self.accounts(), i)?;
        if !is_fitting(i) {
            return Err(Fault::found(Reason::NotACall));
        }
        let cover = self.cover_after(i);
        if cover < 0 {
            return Err(Fault::found(Reason::Rest));
        }
        let below = ask_below(&self.below, i.account, i.series, sent(i))?;
        if cover > REACH {
            return Err(Fault::found(Reason::Reach));
        }
        Ok(covered(below, cover))
    }

    // Obeyed, the ledger below has carried out what was sent down, and nothing else has happened to it.
    fn instruct(&mut self, i: Instruction) -> Result<Quote, Fault>
        ensures carried { Instructed (layer_meaning L.Ledger.meaning) self.old self.new i result }
        ensures kept { LayerKeeps L.Ledger.keeps self.old self.new }
        ensures sent { OnOk result (Passed L.Ledger.meaning self.old.below self.new.below (cover_sent i.action i)) }
    {
        let quote = self.quote(i)?;
        let cover = self.cover_after(i);
        send_below(&mut self.below, sent(i));
        self.cover.put(i.account, i.series, cover);
        Ok(quote)
    }
}
