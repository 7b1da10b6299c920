// Why a step of reclaim was not done.
ghost use Rattle.request_turns.specs.Entries.{has_failed, refusal_in};
ghost use Rattle.std.specs.Prelude.{◌≡◌};

use manager::StepFault;

/// Whether a disk call of the step failed. A step on a manager that was down before isn't one.
pub(crate) fn has_failed<T>(answer: &Result<T, StepFault>) -> bool
    ensures { result ≡ has_failed answer.now }
{
    matches!(answer, Err(StepFault::DiskFault(_)))
}

/// The refusal of a step that was refused.
pub(crate) fn refusal_in(answer: Result<(), StepFault>) -> Option<StepFault>
    ensures { result ≡ refusal_in answer }
{
    match answer {
        Ok(()) => None,
        Err(fault) => Some(fault),
    }
}
