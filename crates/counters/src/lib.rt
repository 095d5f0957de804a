// How a frame ended, and the block of nine counters that counts such ends; the caller owns the block.
// Assumes nothing: no function has a `requires`, and no block is refused.
#![tactic(auto)]

pub mod outcome;

ghost use Rattle.std.specs.Prelude.{◌≡◌};
ghost use Rattle.counters.specs.Ended.{step_report};
ghost use Rattle.counters.specs.declared.outcome.Outcome.TheVariants as report;
ghost use Rattle.counters.specs.Count.{one_more, cleared_counters, bumped_for};

use crate::outcome::Outcome;

// How many frames there were of each kind: good requests, empty frames, and failures by the reason's number.
#[repr(C)]
#[derive(Clone, Copy, Debug, Default, PartialEq, Eq)]
pub struct Counters {
    pub good: u32,
    pub empty: u32,
    pub reason1: u32,
    pub reason2: u32,
    pub reason3: u32,
    pub reason4: u32,
    pub reason5: u32,
    pub reason6: u32,
    pub reason7: u32,
}

// A block in which nothing is counted.
pub fn cleared() -> Counters
    ensures { result ≡ cleared_counters }
{
    Counters::default()
}

// The counters after a frame that ended so; as they are where none ended.
#[tactic(auto, unfolding(crate::specs::Count::bumped_for, crate::specs::Ended::step_report))]
pub fn bumped(mut counters: Counters, outcome: Outcome) -> Counters
    ensures { result ≡ bumped_for counters (step_report outcome) }
{
    match outcome {
        Outcome::Refused | Outcome::More => {}
        Outcome::Empty => counters.empty = one_more(counters.empty),
        Outcome::Request(_) | Outcome::KeySet(_, _) => counters.good = one_more(counters.good),
        Outcome::Failure(reason) => counters = failed(counters, reason),
    }
    counters
}

// The counters after a failure with this reason.
#[tactic(auto, unfolding(crate::specs::Count::bumped_for, crate::specs::Ended::step_report))]
fn failed(mut counters: Counters, reason: u8) -> Counters
    ensures { result ≡ bumped_for counters (step_report (report.Failure reason)) }
{
    match reason {
        1 => counters.reason1 = one_more(counters.reason1),
        2 => counters.reason2 = one_more(counters.reason2),
        3 => counters.reason3 = one_more(counters.reason3),
        4 => counters.reason4 = one_more(counters.reason4),
        5 => counters.reason5 = one_more(counters.reason5),
        6 => counters.reason6 = one_more(counters.reason6),
        7 => counters.reason7 = one_more(counters.reason7),
        _ => {}
    }
    counters
}

#[tactic(auto, unfolding(crate::specs::Count::one_more))]
fn one_more(count: u32) -> u32
    ensures { result ≡ one_more count }
{
    count.saturating_add(1)
}

// Bumps the counter of a frame's outcome in place.
pub fn bump(block: &mut Counters, outcome: Outcome)
    ensures { block.new ≡ bumped_for block.old (step_report outcome) }
{
    *block = bumped(*block, outcome);
}
