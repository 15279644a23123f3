//! A look at random runs where the levels have risen high: a failure that lies deep is met there long before the levels reach it.

ghost use Rattle.std.specs.Prelude.{IfOk, IfSome};
ghost use Rattle.ic3_general.specs.Aims.{IsAim, IsFailureOn};

use ic3_general::Aim;
use ja_base::Memory;
use ja_project::Coded;
use local_stim::LocalFailure;
use random_sim::simulate;
use std::alloc::Global;

/// So many values of variables are computed at most for one look.
const MOST_VALUES: u32 = 1 << 24;

/// So many steps are taken at most for one look.
const MOST_STEPS: u32 = 1 << 14;

/// Runs are looked at where the top has just become 16, and each time that it is four times as high again. The seed is the top.
pub(crate) fn sighted(
    alloc: Global,
    coded: &Coded,
    aim: &Aim,
    top: u32,
) -> Result<Option<LocalFailure>, Memory>
    requires { IsAim coded.now aim.now }
    ensures { IfOk result (λ found. IfSome found (IsFailureOn coded.now aim.now)) }
{
    if !matches!(top, 16 | 64 | 256 | 1024 | 4096) {
        return Ok(None);
    }
    let steps = MOST_STEPS.min(MOST_VALUES / coded.vars());
    let seed = u64::from(top);
    let found = simulate(alloc, coded.task(), aim.prop, &aim.respect, seed, steps)?;
    Ok(found)
}
