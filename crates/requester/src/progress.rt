// The first fields of the main processor's part: what is outstanding, and under which number.
// Assumes that the part has its published length, or is valid, as each `requires` states.
ghost use Rattle.std.specs.Prelude.{◌≡◌, true, ◌≤◌, ◌||◌, ◌&&◌, is_some, length};
ghost use Rattle.requester.specs.Layout.{requester_length};
ghost use Rattle.requester.specs.Requester.{anew};
ghost use Rattle.requester.specs.Valid.{valid_requester};
ghost use Rattle.requester.specs.Calls.{end_report, part_moved, part_moved_to};
ghost use Rattle.requester.specs.Progress.{recovery_report, ProgressIn, with_progress, idle_progress, anew_progress};
ghost use Rattle.requester.specs.Hearing.{next_of};

use crate::layout;
use crate::outcome::Next;
use crate::step::Step;

// The newest number, the recovery's step, whether the frame of the one outstanding is to go out, and whether a request is kept.
#[derive(Clone, Copy, Debug, PartialEq, Eq)]
pub(crate) struct Progress {
    pub number: u64,
    pub recovery: Option<Step>,
    pub unsent: bool,
    pub kept: bool,
}

impl Progress {
    // Nothing is outstanding.
    pub(crate) fn idle(number: u64) -> Progress
        ensures { result ≡ idle_progress number }
    {
        Progress {
            number,
            recovery: None,
            unsent: false,
            kept: false,
        }
    }

    pub(crate) fn read(requester: &[u8]) -> Progress
        ensures { ProgressIn requester.now result }
    {
        Progress {
            number: octets::read_u64(requester, layout::NUMBER_OFFSET),
            recovery: Step::at(octets::read_u8(requester, layout::RECOVERY_OFFSET)),
            unsent: octets::read_u8(requester, layout::UNSENT_OFFSET) == 1,
            kept: octets::read_u8(requester, layout::KEPT_OFFSET) == 1,
        }
    }

    pub(crate) fn write(self, requester: &mut [u8])
        requires { requester_length ≤ length requester.old }
        ensures { requester.new ≡ with_progress self requester.old }
    {
        octets::write_u64(requester, layout::NUMBER_OFFSET, self.number);
        requester[layout::RECOVERY_OFFSET] = Step::number(self.recovery);
        requester[layout::UNSENT_OFFSET] = u8::from(self.unsent);
        requester[layout::KEPT_OFFSET] = u8::from(self.kept);
    }

    // Whether one is outstanding: a step of a recovery, or the request kept.
    pub(crate) fn is_outstanding(self) -> bool
        ensures { result ≡ (is_some self.recovery || self.kept) }
    {
        self.recovery.is_some() || self.kept
    }

    // Whether the frame of the one outstanding is to go out.
    pub(crate) fn is_unsent(self) -> bool
        ensures { result ≡ ((is_some self.recovery || self.kept) && self.unsent) }
    {
        self.is_outstanding() && self.unsent
    }

    // A step of a recovery, or the original, is to go out under the next number; none where no number is left.
    pub(crate) fn anew(self, recovery: Option<Step>) -> Option<Progress>
        ensures { result ≡ anew_progress recovery self }
    {
        if layout::LAST_NUMBER <= self.number {
            return None;
        }
        Some(Progress {
            number: self.number + 1,
            recovery,
            unsent: true,
            ..self
        })
    }
}

// A step of a recovery, or the original, is to go out under a new number.
// Without one, both end with 14, and the answer is true.
fn take_number(requester: &mut [u8], step: Option<Step>) -> bool
    requires { valid_requester requester.old ≡ true }
    ensures { part_moved (end_report result) requester.new ≡ part_moved_to (anew (recovery_report step)) requester.old }
{
    let now = Progress::read(requester);
    match now.anew(step) {
        Some(then) => {
            then.write(requester);
            false
        }
        None => {
            Progress::idle(now.number).write(requester);
            true
        }
    }
}

// Goes on to what comes next; whether a recovery ended with 14.
pub(crate) fn go_on(requester: &mut [u8], next: Next) -> bool
    requires { valid_requester requester.old ≡ true }
    ensures { part_moved (end_report result) requester.new ≡ part_moved_to (next_of next) requester.old }
{
    match next {
        Next::Same => false,
        Next::Again => {
            requester[layout::UNSENT_OFFSET] = 1;
            false
        }
        Next::Anew(step) => take_number(requester, step),
        Next::Idle => {
            let now = Progress::read(requester);
            Progress::idle(now.number).write(requester);
            false
        }
    }
}
