// A limiter is made over a ledger, and runs a list of calls.
ghost use Rattle.std.specs.Prelude.{◌≡◌, [], IfOk, IfErr};
ghost use Rattle.limiter.specs.States.{state_of, fresh};
ghost use Rattle.limiter.specs.Promise.{Promised};

use crate::Limiter;
use crate::phase::Phase;
use calls::{Call, Reply};
use ledger::faults::Fault;
use ledger::ledgers::Ledger;
use parties::{Directory, Limits};
use std::alloc::{AllocFailed, Global};
use strikes::Class;

// A limiter after its calls, and their answers in order.
#[derive(Drop)]
pub struct Outcome<L: Ledger> {
    pub limiter: Limiter<L>,
    pub answers: Vec<Result<Reply, Fault>>,
}

impl<L: Ledger> Limiter<L> {
    // In set-up, with no strike, account or limit.
    pub fn new(ledger: L) -> Limiter<L>
        ensures state { state_of result ≡ fresh ledger }
        ensures begins { Promised L.Ledger.meaning L.Ledger.keeps ledger [] [] (state_of result) }
    {
        Limiter {
            phase: Phase::Setup,
            class: Class::new(),
            directory: Directory::new(),
            limits: Limits::new(),
            ledger,
        }
    }

    // The ledger, for reading. Not shared with the layers' `below`: a limiter takes calls and is no layer.
    pub fn ledger(&self) -> &L
        ensures { result.now ≡ self.now.ledger }
    {
        &self.ledger
    }

    // The ledger, given back.
    pub fn into_ledger(self) -> L
        ensures { result ≡ self.ledger }
    {
        self.ledger
    }
}

// Makes a limiter over the ledger and gives it each call in turn. Memory for the answers is had before the first call;
// where there is none, the ledger comes back as it was.
pub fn run<L: Ledger>(heap: Global, ledger: L, calls: &[Call]) -> Result<Outcome<L>, AllocFailed<L>>
    ensures promised { IfOk result (λ x. Promised L.Ledger.meaning L.Ledger.keeps ledger calls.now x.answers.items (state_of x.limiter)) }
    ensures refused { IfErr result (λ y. y.value ≡ ledger) }
{
    let Ok(mut answers) = Vec::with_capacity(heap, calls.len()) else {
        return Err(AllocFailed { value: ledger });
    };
    let mut limiter = Limiter::new(ledger);
    for call in calls {
        answers.push_reserved(limiter.call(*call));
    }
    Ok(Outcome { limiter, answers })
}
