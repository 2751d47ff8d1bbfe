// One call on a limiter, obeyed or declined.
ghost use Rattle.std.specs.Prelude.{◌≡◌};
ghost use Rattle.expiry.specs.Sides.{side_number};
ghost use Rattle.strikes.specs.Classes.{strikes_of, extended};
ghost use Rattle.parties.specs.Directories.{entries_of, enrolled};
ghost use Rattle.parties.specs.Levels.{level_number};
ghost use Rattle.limiter.specs.States.{state_of};
ghost use Rattle.limiter.specs.Verdicts.{limit_verdict, instruct_verdict};
ghost use Rattle.limiter.specs.Steps.{Follows, Step};
ghost use Rattle.limiter.specs.Promise.{Extends};

use crate::Limiter;
use crate::checking::check_most;
use crate::phase::Phase;
use calls::{Call, NewLimit, Reply};
use expiry::side::Side;
use ledger::cells::Instruction;
use ledger::checks::WIDTH;
use ledger::faults::{Fault, Reason};
use ledger::ledgers::Ledger;
use parties::bounds::is_limit;
use parties::entry::Entry;
use parties::level::Level;
use strikes::strike::Strike;

impl<L: Ledger> Limiter<L> {
    fn add_strike(&mut self, strike: Strike) -> Result<Reply, Fault>
        ensures { Follows L.Ledger.meaning (state_of self.old) (Call.Strike strike) (extended (strikes_of self.old.class) strike.price strike.size) result (state_of self.new) }
    {
        self.class.add(strike.price, strike.size)?;
        Ok(Reply::Done)
    }

    fn add_account(&mut self, entry: Entry) -> Result<Reply, Fault>
        ensures { Follows L.Ledger.meaning (state_of self.old) (Call.Account entry) (enrolled (L.Ledger.meaning self.old.ledger).taken (entries_of self.old.directory) entry) result (state_of self.new) }
    {
        let taken = self.ledger.accounts();
        self.directory.add(taken, entry)?;
        Ok(Reply::Done)
    }

    fn set_limit(&mut self, n: NewLimit) -> Result<Reply, Fault>
        ensures { Follows L.Ledger.meaning (state_of self.old) (Call.Limit n) (limit_verdict L.Ledger.meaning (state_of self.old) n) result (state_of self.new) }
    {
        let level = Level::try_from(n.level)?;
        let side = Side::try_from(n.side)?;
        if n.party >= WIDTH {
            return Err(Fault::found(Reason::Unknown));
        }
        if !is_limit(n.limit) {
            return Err(Fault::found(Reason::Amount));
        }
        let quantity = self.party_quantities(level, n.party, None).on(side);
        check_most(quantity, n.limit, Reason::InUse, level, side)?;
        // It cannot refuse: party and limit were checked just before.
        let _ = self.limits.set(level, n.party, side, n.limit);
        Ok(Reply::Done)
    }

    fn instruct(&mut self, i: Instruction) -> Result<Reply, Fault>
        ensures follows { Follows L.Ledger.meaning (state_of self.old) (Call.Instruct i) (instruct_verdict L.Ledger.meaning (state_of self.old) i) result (state_of self.new) }
        ensures kept { L.Ledger.keeps self.old.ledger self.new.ledger }
    {
        self.admit(i)?;
        // It cannot refuse: it was quoted just before.
        let _ = self.ledger.instruct(i);
        Ok(Reply::Done)
    }

    // Answers exactly as defined, and leaves exactly the state defined. A decline changes nothing.
    fn answer(&mut self, call: Call) -> Result<Reply, Fault>
        ensures { Step L.Ledger.meaning L.Ledger.keeps (state_of self.old) call result (state_of self.new) }
    {
        match (self.phase, call) {
            (_, Call::Limit(n)) => self.set_limit(n),
            (_, Call::Quantities(n)) => self.quantities(n),
            (_, Call::Tightest(account)) => self.tightest(account),
            (Phase::Setup, Call::Strike(strike)) => self.add_strike(strike),
            (Phase::Setup, Call::Account(entry)) => self.add_account(entry),
            (Phase::Setup, Call::Start) => {
                if !self.ledger.unused() {
                    return Err(Fault::found(Reason::Used));
                }
                self.phase = Phase::Started;
                Ok(Reply::Done)
            }
            (Phase::Started, Call::Instruct(i)) => self.instruct(i),
            (Phase::Started, Call::Strike(_) | Call::Account(_) | Call::Start)
            | (Phase::Setup, Call::Instruct(_)) => Err(Fault::found(Reason::Phase)),
        }
    }

    // One call more of a run.
    pub fn call(&mut self, call: Call) -> Result<Reply, Fault>
        ensures step { Step L.Ledger.meaning L.Ledger.keeps (state_of self.old) call result (state_of self.new) }
        ensures extends { Extends L.Ledger.meaning L.Ledger.keeps (state_of self.old) call result (state_of self.new) }
    {
        self.answer(call)
    }
}
