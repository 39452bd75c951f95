//! In which of the two profiles that are compared a fault is.
ghost use Rattle.std.specs.Prelude.{◌≡◌};

use question_answers::Side;
use std::fmt;
use trace_report::{Fault, Status};

/// Why two profiles aren't compared.
#[derive(Clone, Copy, Debug, PartialEq, Eq)]
pub(crate) enum SideFault {
    /// A fault of neither of them.
    Neither(Fault),
    /// One of them is refused.
    Of(Side, Fault),
}

impl SideFault {
    ghost use Rattle.trace_questions.specs.inner.Sides.{side_fault_of, side_fault_status};

    /// A fault that was found with one of them. Running out of memory and failed input are of neither.
    pub(crate) fn of(side: Side, fault: Fault) -> SideFault
        ensures { result ≡ side_fault_of side fault }
    {
        match fault {
            Fault::Text(_) | Fault::Compiling(_) => SideFault::Of(side, fault),
            _ => SideFault::Neither(fault),
        }
    }

    /// How the run ends.
    pub(crate) fn status(self) -> Status
        ensures { result ≡ side_fault_status self }
    {
        match self {
            SideFault::Neither(fault) => fault.status(),
            SideFault::Of(_, fault) => fault.status(),
        }
    }
}

impl From<Fault> for SideFault {
    ghost use Rattle.trace_questions.specs.declared.sides.SideFault.TheVariants.{Neither};

    ghost from_gives = { λ fault given. given ≡ Neither fault };

    fn from(fault: Fault) -> SideFault {
        SideFault::Neither(fault)
    }
}

impl fmt::Display for SideFault {
    ghost use Rattle.std.specs.Prelude.{Some};
    ghost use Rattle.trace_questions.specs.inner.Sides.{side_fault_text};

    ghost output = { λ f. Some (side_fault_text f) };

    fn fmt<W: fmt::Write>(&self, f: &mut fmt::Formatter<W>) -> fmt::Result {
        match self {
            SideFault::Neither(fault) => write!(f, "{fault}"),
            SideFault::Of(Side::Old, fault) => write!(f, "{fault} in OLD"),
            SideFault::Of(Side::New, fault) => write!(f, "{fault} in NEW"),
        }
    }
}
