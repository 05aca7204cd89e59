// The dispatcher: sixteen callers add wanted cycles, and a turn grants a slice of one budget, shared by all, to the next of them
// in circle order (document 02, T-06). It answers on every dispatcher, also on one that no list of calls leaves.
#![tactic(auto)]

mod caller;
mod circle;
mod driven;

ghost use Rattle.std.specs.Prelude.{◌≡◌, ◌+◌, ◌^◌, ◌<◌, ◌≤◌};
ghost use Rattle.dispatch.specs.Dispatch.{dispatch_refusal_number, fresh, wanted_of, add_number, raised, after_add, add_outcome_number, turn_of, turn_told_of, after_turn, served};
ghost use Rattle.dispatch.specs.Claims.{DispatchLaws};

pub use caller::Caller;
use circle::{next_ready, one_past};
pub use driven::driven_laws;

// The callers are 0 to 15.
pub const CALLERS: usize = 16;

// The longest slice.
pub const MAX_SLICE: u64 = 4096;

// The most that a caller may want.
pub const MAX_WANTED: u64 = 0x1_0000_0000;

// The callers, the one at which the next turn's search starts, and what is left of the budget.
#[derive(Clone, Copy, Debug, PartialEq, Eq)]
pub struct Dispatcher {
    pub callers: [Caller; CALLERS],
    pub position: usize,
    pub budget: u64,
}

// A slice that a caller was granted.
#[derive(Clone, Copy, Debug, PartialEq, Eq)]
pub struct Grant {
    pub caller: usize,
    pub cycles: u64,
}

// Why a call is refused.
#[derive(Clone, Copy, Debug, PartialEq, Eq)]
pub enum Refusal {
    // 11: the caller or the circle position is CALLERS or above.
    NoCaller,
    // 12: the caller would want more than MAX_WANTED.
    TooMuchWanted,
}

// Its number in the papers.
impl From<Refusal> for u64 {
    ghost from_gives = { λ why number. number ≡ dispatch_refusal_number why };

    fn from(why: Refusal) -> u64 {
        match why {
            Refusal::NoCaller => 11,
            Refusal::TooMuchWanted => 12,
        }
    }
}

// What an add answers. A refused one returns the dispatcher that it got.
#[derive(Clone, Copy)]
pub struct AddAnswer {
    pub outcome: Result<(), Refusal>,
    pub dispatcher: Dispatcher,
}

// What a turn answers. One that is refused or grants nothing returns the dispatcher that it got.
#[derive(Clone, Copy)]
pub struct TurnAnswer {
    pub outcome: Result<Option<Grant>, Refusal>,
    pub dispatcher: Dispatcher,
}

// Whether an add is refused. A sum that does not fit its type is too large as well.
fn judge_add(d: &Dispatcher, caller: usize, cycles: u64) -> Result<(), Refusal>
    ensures { add_outcome_number result ≡ add_number d.now caller cycles }
{
    if CALLERS <= caller || CALLERS <= d.position {
        return Err(Refusal::NoCaller);
    }
    if MAX_WANTED < d.callers[caller].wanted.saturating_add(cycles) {
        return Err(Refusal::TooMuchWanted);
    }
    Ok(())
}

// What a turn grants.
fn judge_turn(d: &Dispatcher) -> Result<Option<Grant>, Refusal>
    ensures { turn_told_of result ≡ turn_of d.now }
{
    if CALLERS <= d.position {
        return Err(Refusal::NoCaller);
    }
    let Some(caller) = next_ready(d) else {
        return Ok(None);
    };
    let cycles = d.callers[caller].slice(d.budget);
    Ok(Some(Grant { caller, cycles }))
}

// The caller wants so many cycles more.
#[tactic(auto, unfolding(crate::specs::Dispatch::raised))]
fn raise(d: &mut Dispatcher, caller: usize, cycles: u64)
    requires { (caller < 16) × (wanted_of d.old caller + cycles ≤ 2 ^ 32) }
    ensures { d.new ≡ raised d.old caller cycles }
{
    d.callers[caller].wanted += cycles;
}

// The grant is made.
#[tactic(auto, unfolding(crate::specs::Dispatch::served))]
fn serve(d: &mut Dispatcher, grant: Grant)
    requires { (grant.caller < 16) × (grant.cycles ≤ wanted_of d.old grant.caller) × (grant.cycles ≤ d.old.budget) }
    ensures { d.new ≡ served d.old grant }
{
    d.callers[grant.caller].wanted -= grant.cycles;
    d.position = one_past(grant.caller);
    d.budget -= grant.cycles;
}

impl Dispatcher {
    // A fresh dispatcher: nobody wants any, and the circle starts at caller 0.
    pub fn start(budget: u64) -> Dispatcher
        ensures { result ≡ fresh budget }
    {
        Dispatcher {
            callers: [Caller { wanted: 0 }; CALLERS],
            position: 0,
            budget,
        }
    }

    // The caller wants so many cycles more.
    pub fn add(self, caller: usize, cycles: u64) -> AddAnswer
        ensures outcome { add_outcome_number result.outcome ≡ add_number self caller cycles }
        ensures dispatcher { result.dispatcher ≡ after_add self caller cycles }
    {
        let mut dispatcher = self;
        let outcome = dispatcher.add_in_place(caller, cycles);
        AddAnswer {
            outcome,
            dispatcher,
        }
    }

    // Grants a slice to the next caller in circle order who wants any.
    pub fn turn(self) -> TurnAnswer
        ensures outcome { turn_told_of result.outcome ≡ turn_of self }
        ensures dispatcher { result.dispatcher ≡ after_turn self }
    {
        let mut dispatcher = self;
        let outcome = dispatcher.turn_in_place();
        TurnAnswer {
            outcome,
            dispatcher,
        }
    }

    // An add on a dispatcher that is lent. A refused one leaves it as it was.
    pub fn add_in_place(&mut self, caller: usize, cycles: u64) -> Result<(), Refusal>
        ensures outcome { add_outcome_number result ≡ add_number self.old caller cycles }
        ensures dispatcher { self.new ≡ after_add self.old caller cycles }
    {
        let outcome = judge_add(self, caller, cycles);
        match outcome {
            Ok(()) => raise(self, caller, cycles),
            Err(_) => {}
        }
        outcome
    }

    // A turn on a dispatcher that is lent. One that is refused or grants nothing leaves it as it was.
    pub fn turn_in_place(&mut self) -> Result<Option<Grant>, Refusal>
        ensures outcome { turn_told_of result ≡ turn_of self.old }
        ensures dispatcher { self.new ≡ after_turn self.old }
    {
        let outcome = judge_turn(self);
        match outcome.unwrap_or(None) {
            Some(grant) => serve(self, grant),
            None => {}
        }
        outcome
    }
}

// What is claimed of a turn and of lists of adds and turns (specs/Claims.antt). The function does nothing; its contract is the
// claim.
pub fn dispatch_laws()
    ensures { DispatchLaws }
{}
