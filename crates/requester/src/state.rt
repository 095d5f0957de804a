// What is outstanding at the main processor's end, for the caller: nothing, its request, or a step of a recovery.
// Assumes nothing: no public function here has a `requires`.
ghost use Rattle.std.specs.Prelude.{◌≡◌};
ghost use Rattle.requester.specs.State.{recovering};
ghost use Rattle.requester.specs.Calls.{stage_report, standing_report, part_standing, state_report, state_promise};
ghost use Rattle.requester.specs.Progress.{ProgressIn, recovering_step};

use crate::progress::Progress;
use crate::step::Step;
use crate::{layout, valid};
use refusals::Refusal;

// Nothing is outstanding; the caller's request is; or a recovery's 0x08, 0x09 or 0x0a.
#[derive(Clone, Copy, Debug, PartialEq, Eq)]
pub enum Stage {
    Idle,
    Waiting,
    Fetch,
    Acknowledge,
    Alert,
}

// Command and number of the one outstanding, 0 where there is none; whether its frame is to go out by `send`.
// `original`: in a recovery, whether a request that it cut off goes out anew behind it.
#[derive(Clone, Copy, Debug, PartialEq, Eq)]
pub struct Standing {
    pub stage: Stage,
    pub command: u8,
    pub number: u64,
    pub unsent: bool,
    pub original: bool,
}

// Tells what is outstanding, and changes nothing.
pub fn state(requester: &[u8]) -> Result<Standing, Refusal>
    ensures { state_report result ≡ state_promise requester.now }
{
    if !valid::requester_is_valid(requester) {
        return Err(Refusal::BadState);
    }
    let now = Progress::read(requester);
    if now.is_outstanding() {
        return Ok(read_standing(requester, now));
    }
    Ok(Standing {
        stage: Stage::Idle,
        command: 0,
        number: 0,
        unsent: false,
        original: false,
    })
}

// The one outstanding: a step of a recovery, or the request kept.
fn read_standing(requester: &[u8], now: Progress) -> Standing
    requires { ProgressIn requester.now now }
    ensures { standing_report result ≡ part_standing requester.now }
{
    match now.recovery {
        None => Standing {
            stage: Stage::Waiting,
            command: octets::read_u8(requester, layout::COMMAND_OFFSET),
            number: now.number,
            unsent: now.unsent,
            original: false,
        },
        Some(step) => Standing {
            stage: stage_of(step),
            command: step.command(),
            number: now.number,
            unsent: now.unsent,
            original: now.kept,
        },
    }
}

// The stage at a recovery's step.
#[tactic(auto, unfolding(crate::specs::Calls::stage_report))]
fn stage_of(step: Step) -> Stage
    ensures { stage_report result ≡ recovering (recovering_step step) }
{
    match step {
        Step::Fetch => Stage::Fetch,
        Step::Acknowledge => Stage::Acknowledge,
        Step::Alert => Stage::Alert,
    }
}
