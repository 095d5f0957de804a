// The bus driver's probe list: one record per part, lent by the caller and brought up to date in place.
// Assumes nothing: no function has a `requires`.
#![tactic(auto)]

ghost use Rattle.std.specs.Prelude.{◌≡◌};
ghost use Rattle.probes.specs.Probes.{probe_change, good_change, good, result_set, update_outcome, update_promise};

use refusals::Refusal;

// A part's address on the bus, and the result of its probe.
#[repr(C)]
#[derive(Clone, Copy, Debug, PartialEq, Eq)]
pub struct Probe {
    pub address: u8,
    pub result: u8,
}

// Gives each part that `indices` names the result at the same index of `results`, the later one where a part is named
// twice. All changes are tested before the first is made. Two lists side by side, as C lends them.
pub fn update(list: &mut [Probe], indices: &[usize], results: &[u8]) -> Result<(), Refusal>
    ensures { update_outcome result list.new
        ≡ update_promise list.old indices.now results.now }
{
    if !changes_are_good(list.len(), indices, results) {
        return Err(Refusal::BadProbe);
    }
    for (index, res) in indices.iter().zip(results) {
        set_result(list, *index, *res);
    }
    Ok(())
}

// Writes the result of one record; nothing where the list has no such record. An `if`: of `get_mut` two goals stay open.
fn set_result(list: &mut [Probe], index: usize, res: u8)
    ensures { list.new ≡ result_set list.old index res }
{
    if index < list.len() {
        list[index].result = res;
    }
}

// Whether all changes of a list of so many records may be made.
fn changes_are_good(length: usize, indices: &[usize], results: &[u8]) -> bool
    ensures { result ≡ good length indices.now results.now }
{
    indices.len() == results.len()
        && indices
            .iter()
            .zip(results)
            .all(|(index, res)| is_good(length, *index, *res))
}

// Whether one change may be made: the list has the part, and the result is 0, 2 or 3.
fn is_good(length: usize, index: usize, res: u8) -> bool
    ensures { result ≡ good_change length (probe_change index res) }
{
    index < length && matches!(res, 0 | 2 | 3)
}
