//! Laws of the reports of storms. The functions do nothing: each exists for its contract.
ghost use Rattle.std.specs.Prelude.{◌≡◌};
ghost use Rattle.path_storm.specs.Counts.{IsReportOf};
ghost use Rattle.path_storm.specs.declared.log.StormLog.{StormLog};
ghost use Rattle.path_storm.specs.declared.plan.StormReport.{StormReport};

/// A storm has one report: all of its answers are counted, and all of those that are not justified.
pub fn storms_have_one_report()
    ensures answers { (log : StormLog) (one other : StormReport) → IsReportOf log one → IsReportOf log other →
        one.answers ≡ other.answers }
    ensures unjustified { (log : StormLog) (one other : StormReport) → IsReportOf log one → IsReportOf log other →
        one.unjustified ≡ other.unjustified }
{}
