ghost use Rattle.std.specs.Prelude.{IfSome, IfNone, IfOk, IfErr};
ghost use Rattle.row_rule.specs.Counts.{IsDisturbed, IsOdd, IsStill, IsVersion};

/// The two counts of a walk that ran concurrently with a change: the first is odd, or they differ.
#[derive(Clone, Copy, Debug, PartialEq, Eq)]
pub struct Busy {
    pub began: u64,
    pub ended: u64,
}

/// The version that a count stands for: half of an even one. None while a change is being made.
pub fn version_of(count: u64) -> Option<u64>
    ensures even { IfSome result (IsVersion count) }
    ensures odd { IfNone result (IsOdd count) }
{
    (count % 2 == 0).then_some(count / 2)
}

/// The version that a walk saw, if the counts that it read first and last are one even number; else `Busy`.
pub fn version_between(began: u64, ended: u64) -> Result<u64, Busy>
    ensures still { IfOk result (IsStill began ended) }
    ensures busy { IfErr result (IsDisturbed began ended) }
{
    match version_of(began) {
        Some(version) if began == ended => Ok(version),
        _ => Err(Busy { began, ended }),
    }
}
