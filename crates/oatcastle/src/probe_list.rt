// The probe list's call.
// Assumes nothing: no exported function has a `requires`.
ghost use Rattle.std.specs.Prelude.{◌≡◌};
ghost use Rattle.oatcastle.specs.Answers.{call_outcome};
ghost use Rattle.oatcastle.specs.ProbeCalls.{probe_update_call};

use crate::answer_writing::number;
use probes::Probe;

// Gives each part named by its index its new result; 15, and nothing changed, where one change is not allowed.
#[tactic(auto, unfolding(probes::specs::Probes::update_report))]
#[unsafe(no_mangle)]
pub extern "C" fn oatcastle_probe_update(
    list: &mut [Probe],
    indices: &[usize],
    results: &[u8],
) -> u32
    ensures { call_outcome result list.new
        ≡ probe_update_call list.old indices.now results.now }
{
    let updated = probes::update(list, indices, results);
    number(updated)
}
