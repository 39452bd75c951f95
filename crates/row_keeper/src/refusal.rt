use event_machine::StepFault;

/// The step isn't legal in the keeper's current state; nothing was changed.
#[derive(Clone, Copy, Debug, PartialEq, Eq)]
pub struct NotNow;

impl From<NotNow> for StepFault {
    ghost use Rattle.std.specs.Prelude.{◌≡◌};
    ghost use Rattle.event_machine.specs.declared.event.StepFault.TheVariants as fault;

    ghost from_gives = { λ _ given. given ≡ fault.NotNow };

    fn from(_refusal: NotNow) -> StepFault {
        StepFault::NotNow
    }
}
