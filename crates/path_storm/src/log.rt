//! What a storm did, and its report.
ghost use Rattle.std.specs.Prelude.{◌≡◌, ◌+◌, ℕ, IfErr, IfOk, map};
ghost use Rattle.path_storm.specs.declared.fault.StormFault.TheVariants.{NoMemory};
ghost use Rattle.mediation.specs.PolicyChanges.{deed_of};
ghost use Rattle.justification.specs.Justified.{Justified};
ghost use Rattle.path_storm.specs.Counts.{IsCountOfOthers, IsReportOf};
ghost use Rattle.path_storm.specs.Logs.{IsPolicyLog, IsTreeLog};

use crate::fault::StormFault;
use crate::plan::StormReport;
use crate::setup::{FILE, PROFILE};
use directory_tree::Change;
use justification::Trail;
use matcher::PolicyChange;
use names::{Errno, Perms};
use path_guard::{Answer, Session};
use std::alloc::Global;

/// The changes of the tree.
#[derive(Drop)]
pub struct TreeLog {
    /// Those that were made, in the order of their versions.
    pub made: Vec<Change<'static>>,
    /// Why each of the others was refused.
    pub refused: Vec<Errno>,
}

impl TreeLog {
    /// No change was tried.
    #[tactic(auto, using(crate::proofs::Logged::no_tree))]
    pub(crate) fn new(alloc: Global) -> TreeLog
        ensures { IsTreeLog 0 result }
    {
        TreeLog {
            made: Vec::new(alloc),
            refused: Vec::new(alloc),
        }
    }

    /// These changes, and after them those.
    #[tactic(auto, using(crate::proofs::Logged::tree_follows))]
    pub(crate) fn and(self, those: TreeLog) -> Result<TreeLog, StormFault>
        ensures { IfOk result (λ all. (tried more : ℕ) → IsTreeLog tried self → IsTreeLog more those → IsTreeLog (tried + more) all) }
    {
        let (mut all, mut those) = (self, those);
        all.made.append(&mut those.made)?;
        all.refused.append(&mut those.refused)?;
        Ok(all)
    }
}

/// The changes of the policy.
#[derive(Drop)]
pub struct PolicyLog {
    /// Those that were made, in the order of their versions.
    pub made: Vec<PolicyChange>,
    /// Why each of the others was refused.
    pub refused: Vec<Errno>,
}

impl PolicyLog {
    /// No change was tried.
    #[tactic(auto, using(crate::proofs::Logged::no_policy))]
    pub(crate) fn new(alloc: Global) -> PolicyLog
        ensures { IsPolicyLog 0 result }
    {
        PolicyLog {
            made: Vec::new(alloc),
            refused: Vec::new(alloc),
        }
    }

    /// These changes, and after them those.
    #[tactic(auto, using(crate::proofs::Logged::policy_follows))]
    pub(crate) fn and(self, those: PolicyLog) -> Result<PolicyLog, StormFault>
        ensures { IfOk result (λ all. (tried more : ℕ) → IsPolicyLog tried self → IsPolicyLog more those
            → IsPolicyLog (tried + more) all) }
    {
        let (mut all, mut those) = (self, those);
        all.made.append(&mut those.made)?;
        all.refused.append(&mut those.refused)?;
        Ok(all)
    }
}

/// The opens of one session.
#[derive(Drop)]
pub struct SessionLog {
    /// The session, as its last open left it.
    pub session: Session,
    /// The answers, in the order of its opens.
    pub answers: Vec<Answer>,
}

/// What a storm did.
#[derive(Drop)]
pub struct StormLog {
    /// The permissions that each open asked for.
    pub ask: Perms,
    pub tree: TreeLog,
    pub policy: PolicyLog,
    pub sessions: Vec<SessionLog>,
}

impl StormLog {
    /// Returns the number of answers, and how many of them are not justified by the changes that were made.
    pub fn report(&self, alloc: Global) -> Result<StormReport, StormFault>
        ensures ok { IfOk result (IsReportOf self.now) }
        ensures err { IfErr result (λ fault. fault ≡ NoMemory) }
    {
        let trail = Trail::new(alloc, FILE, self.ask, self.tree.made.as_slice())?;
        let mut report = StormReport {
            answers: 0,
            unjustified: 0,
        };
        for own in &self.sessions {
            let answers = own.answers.as_slice();
            let unjustified = unjustified(&trail, self.policy.made.as_slice(), answers);
            report = StormReport {
                answers: sum(report.answers, answers.len() as u64)?,
                unjustified: sum(report.unjustified, unjustified)?,
            };
        }
        Ok(report)
    }
}

/// Returns the number of answers that are not justified.
fn unjustified(trail: &Trail<'_>, policy: &[PolicyChange], answers: &[Answer]) -> u64
    ensures { IsCountOfOthers (Justified PROFILE.now trail.now.path trail.now.ask trail.now.changes (map deed_of policy.now))
        answers.now result }
{
    let mut count = 0;
    for answer in answers {
        if !trail.justifies(answer, PROFILE, policy) {
            count += 1;
        }
    }
    count
}

/// Adds two counts. More answers than can be counted would not fit in memory.
fn sum(one: u64, other: u64) -> Result<u64, StormFault>
    ensures ok { IfOk result (λ sum. sum ≡ one + other) }
    ensures err { IfErr result (λ fault. fault ≡ NoMemory) }
{
    one.checked_add(other).ok_or(StormFault::NoMemory)
}
