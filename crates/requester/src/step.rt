// What a recovery has outstanding, and the byte under which the part keeps it.
// Assumes nothing.
ghost use Rattle.std.specs.Prelude.{◌≡◌};
ghost use Rattle.requester.specs.Layout.{step_at, step_number};
ghost use Rattle.requester.specs.Progress.{recovery_report, step_command};

use crate::layout;
use line::numbers;

#[derive(Clone, Copy, Debug, PartialEq, Eq)]
pub(crate) enum Step {
    Fetch,
    Acknowledge,
    Alert,
}

impl Step {
    // The step that a byte stands for, none at 0.
    #[tactic(auto, unfolding(crate::specs::Layout::step_at))]
    pub(crate) fn at(stored: u8) -> Option<Step>
        ensures { recovery_report result ≡ step_at stored }
    {
        match stored {
            layout::NO_STEP => None,
            layout::FETCH => Some(Step::Fetch),
            layout::ACKNOWLEDGE => Some(Step::Acknowledge),
            _ => Some(Step::Alert),
        }
    }

    // The byte of a step, 0 for none.
    #[tactic(auto, unfolding(crate::specs::Layout::step_number))]
    pub(crate) fn number(step: Option<Step>) -> u8
        ensures { result ≡ step_number (recovery_report step) }
    {
        match step {
            None => layout::NO_STEP,
            Some(Step::Fetch) => layout::FETCH,
            Some(Step::Acknowledge) => layout::ACKNOWLEDGE,
            Some(Step::Alert) => layout::ALERT,
        }
    }

    // The command of a step's request.
    pub(crate) fn command(self) -> u8
        ensures { result ≡ step_command self }
    {
        match self {
            Step::Fetch => numbers::COMMAND_STATUS,
            Step::Acknowledge => numbers::COMMAND_START_ACKNOWLEDGED,
            Step::Alert => numbers::COMMAND_ALERT,
        }
    }
}
