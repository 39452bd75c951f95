//! The lines that answer commands, each composed as a whole before it is written.
ghost use Rattle.std.specs.Prelude.{◌+◌, ◌≡◌, ◌<◌, ◌≤◌, ◌^◌, ◌++◌, IfOk, OnOk, Ok, codes, decimal};
ghost use Rattle.mediation.specs.Answers.{answered};
ghost use Rattle.trace_script.specs.AnswerText.{answered_text, versions_text};
ghost use Rattle.trace_script.specs.Engine.{IsComposed, IsText};
ghost use Rattle.glob_automaton.specs.Automata.{StateLimit};
ghost use Rattle.names.specs.Errors.{errno_text};
ghost use Rattle.rule_profile.specs.Profile.{profile_value};
ghost use Rattle.trace_report.specs.Fault.{fault_text};
ghost use Rattle.trace_script.specs.LineValues.{change_words};
ghost use Rattle.mediation.specs.History.{MayChangePolicy, policy_version};
ghost use Rattle.trace_script.specs.RunOutput.{printed, policy_printed, drop_printed, change_of, change_printed, open_printed};
ghost use Rattle.trace_script.specs.RunOutput.{judged_printed};
ghost use Rattle.trace_script.specs.Script.{publish, link, rename};

use crate::line::ChangeWords;
use crate::stop::Stop;
use directory_tree::{Change, LinkBytes};
use matcher::MakeFault;
use mediation::{Answer, Bench, LinkAnswer};
use names::{Errno, Path, Perms};
use rule_profile::Profile;
use rule_reader::{ReadFault, read};
use std::alloc::{AllocError, Global};
use trace_report::Fault;

/// Publishes the profile of a text, if it is one, and composes the answer as a line.
pub fn policy_line<B: Bench>(alloc: Global, bench: &mut B, text: &[u8]) -> Result<Vec<u8>, Stop>
    requires { MayChangePolicy (B.history bench.old).deeds }
    ensures line { (limit : StateLimit) → IsComposed (printed limit (B.history bench.old) (publish text.now))
        (B.history bench.new) result }
    ensures few { OnOk result (policy_version (B.history bench.new) ≤ policy_version (B.history bench.old) + 1) }
{
    match read(alloc, text) {
        Ok(profile) => profile_line(alloc, bench, profile),
        Err(ReadFault::NoMemory) => Err(Stop::Memory),
        Err(fault) => refusal_line(alloc, Fault::Text(fault)),
    }
}

/// Publishes a profile, if it can be compiled. Its line is begun first, so that running out of memory there publishes nothing.
fn profile_line<B: Bench>(alloc: Global, bench: &mut B, profile: Profile) -> Result<Vec<u8>, Stop>
    requires { MayChangePolicy (B.history bench.old).deeds }
    ensures line { (limit : StateLimit) → IsComposed (policy_printed limit (B.history bench.old) (Ok (profile_value profile)))
        (B.history bench.new) result }
    ensures few { OnOk result (policy_version (B.history bench.new) ≤ policy_version (B.history bench.old) + 1) }
{
    let line = joined(alloc, "policy ", profile.name(), " version ")?;
    match bench.publish(profile) {
        Ok(version) => numbered_line(alloc, line, version),
        Err(MakeFault::NoMemory) => Err(Stop::Memory),
        Err(fault) => refusal_line(alloc, Fault::Compiling(fault)),
    }
}

/// Why a profile isn't published, as a line.
pub fn refusal_line(alloc: Global, fault: Fault) -> Result<Vec<u8>, Stop>
    ensures { IsText (codes "policy " ++ fault_text fault) result }
{
    let line = format!(in alloc; "policy {fault}\n")?;
    Ok(line.into_bytes())
}

/// Removes the profile of this name.
pub(crate) fn drop_line<B: Bench>(
    alloc: Global,
    bench: &mut B,
    name: &[u8],
) -> Result<Vec<u8>, Stop>
    requires { MayChangePolicy (B.history bench.old).deeds }
    ensures { IsComposed (drop_printed (B.history bench.old) name.now) (B.history bench.new) result }
{
    let version = bench.remove(name)?;
    let end = format!(in alloc; " removed version {version}\n")?;
    let line = joined(alloc, "policy ", name, &end)?;
    Ok(line)
}

/// Makes a change of the tree.
pub(crate) fn change_line<B: Bench>(
    alloc: Global,
    bench: &mut B,
    words: ChangeWords<'_>,
) -> Result<Vec<u8>, Stop>
    ensures { IsComposed (change_printed (B.history bench.old) (change_of (change_words words.entry))) (B.history bench.new) result }
{
    match change_of(words) {
        Ok(change) => accepted_line(alloc, bench, &change),
        Err(errno) => errno_line(alloc, errno),
    }
}

/// Makes a change of the tree whose paths are checked.
fn accepted_line<B: Bench>(
    alloc: Global,
    bench: &mut B,
    change: &Change<'_>,
) -> Result<Vec<u8>, Stop>
    ensures { IsComposed (change_printed (B.history bench.old) (Ok change.now)) (B.history bench.new) result }
{
    match bench.change(change) {
        Ok(version) => version_line(alloc, version),
        Err(Errno::ENOMEM) => Err(Stop::Memory),
        Err(errno) => errno_line(alloc, errno),
    }
}

/// Opens a path, and judges it by a profile.
pub(crate) fn open_line<B: Bench>(
    alloc: Global,
    bench: &mut B,
    profile: &[u8],
    path: &[u8],
    ask: Perms,
) -> Result<Vec<u8>, Stop>
    ensures { IsComposed (open_printed (B.history bench.old) profile.now path.now ask) (B.history bench.new) result }
{
    let answer = bench.open(profile, path, ask)?;
    answer_line(alloc, &answer, bench.name())
}

/// The answer to an open, as a line. `name` is the name that was judged.
pub fn answer_line(alloc: Global, answer: &Answer, name: &[u8]) -> Result<Vec<u8>, Stop>
    ensures { IsText (answered_text (answered name.now answer.now)) result }
{
    match *answer {
        Answer::Judged {
            verdict,
            node,
            tree_version,
            policy_version,
        } => {
            let report = format!(in alloc; "{verdict}")?;
            named_line(alloc, &report, name, node, tree_version, policy_version)
        }
        Answer::Failed {
            errno,
            tree_version,
        } => failed_line(alloc, errno, tree_version),
        Answer::NoProfile { policy_version } => unpublished_line(alloc, policy_version),
    }
}

/// Adds one more entry for a file, if a profile allows it.
pub(crate) fn link_line<B: Bench>(
    alloc: Global,
    bench: &mut B,
    profile: &[u8],
    old: &[u8],
    new: &[u8],
) -> Result<Vec<u8>, Stop>
    ensures { IsComposed (judged_printed (B.history bench.old) profile.now old.now new.now) (B.history bench.new) result }
{
    match bench.link(profile, old, new)? {
        LinkAnswer::Linked {
            node,
            tree_version,
            policy_version,
        } => {
            let line = format!(in alloc;
                "linked node {node} tree {tree_version} policy {policy_version}\n"
            )?;
            Ok(line.into_bytes())
        }
        LinkAnswer::NotAllowed {
            verdict,
            node,
            tree_version,
            policy_version,
        } => {
            let report = format!(in alloc; "{verdict}")?;
            let name = bench.name();
            named_line(alloc, &report, name, node, tree_version, policy_version)
        }
        LinkAnswer::Failed {
            errno,
            tree_version,
        } => failed_line(alloc, errno, tree_version),
        LinkAnswer::NoProfile { policy_version } => unpublished_line(alloc, policy_version),
    }
}

/// A change with checked paths, or the first fault of a path, the old one's before the new one's.
pub fn change_of(words: ChangeWords<'_>) -> Result<Change<'_>, Errno>
    ensures { result ≡ change_of (change_words words.entry) }
{
    match words {
        ChangeWords::Mkdir(path) => Ok(Change::Mkdir(Path::check(path)?)),
        ChangeWords::Create(path) => Ok(Change::Create(Path::check(path)?)),
        ChangeWords::Symlink(text, path) => {
            let path = Path::check(path)?;
            Ok(Change::Symlink(LinkBytes::new(text), path))
        }
        ChangeWords::Link(old, new) => link_of(old, new),
        ChangeWords::Unlink(path) => Ok(Change::Unlink(Path::check(path)?)),
        ChangeWords::Rmdir(path) => Ok(Change::Rmdir(Path::check(path)?)),
        ChangeWords::Rename(old, new) => rename_of(old, new),
    }
}

/// A link between checked paths, or the first fault.
fn link_of<'a>(old: &'a [u8], new: &'a [u8]) -> Result<Change<'a>, Errno>
    ensures { result ≡ change_of (link old.now new.now) }
{
    let old = Path::check(old)?;
    let new = Path::check(new)?;
    Ok(Change::Link(old, new))
}

/// A move between checked paths, or the first fault.
fn rename_of<'a>(old: &'a [u8], new: &'a [u8]) -> Result<Change<'a>, Errno>
    ensures { result ≡ change_of (rename old.now new.now) }
{
    let old = Path::check(old)?;
    let new = Path::check(new)?;
    Ok(Change::Rename(old, new))
}

/// A report on a name, with the node and both versions, as a line.
fn named_line(
    alloc: Global,
    report: &str,
    name: &[u8],
    node: u64,
    tree_version: u64,
    policy_version: u64,
) -> Result<Vec<u8>, Stop>
    ensures { IsText (report.now ++ codes " " ++ name.now ++ versions_text node tree_version policy_version) result }
{
    let start = format!(in alloc; "{report} ")?;
    let end = format!(in alloc; " node {node} tree {tree_version} policy {policy_version}\n")?;
    let line = joined(alloc, &start, name, &end)?;
    Ok(line)
}

/// Why there is no verdict, as a line.
fn failed_line(alloc: Global, errno: Errno, tree_version: u64) -> Result<Vec<u8>, Stop>
    ensures { IsText (errno_text errno ++ codes " tree " ++ decimal tree_version) result }
{
    let line = format!(in alloc; "{errno} tree {tree_version}\n")?;
    Ok(line.into_bytes())
}

/// That a profile isn't published, as a line.
fn unpublished_line(alloc: Global, policy_version: u64) -> Result<Vec<u8>, Stop>
    ensures { IsText (codes "no profile policy " ++ decimal policy_version) result }
{
    let line = format!(in alloc; "no profile policy {policy_version}\n")?;
    Ok(line.into_bytes())
}

/// Which version of the tree a change has made, as a line.
pub fn version_line(alloc: Global, version: u64) -> Result<Vec<u8>, Stop>
    ensures { IsText (codes "ok " ++ decimal version) result }
{
    let line = format!(in alloc; "ok {version}\n")?;
    Ok(line.into_bytes())
}

/// Why a change is refused, as a line.
pub fn errno_line(alloc: Global, errno: Errno) -> Result<Vec<u8>, Stop>
    ensures { IsText (errno_text errno) result }
{
    let line = format!(in alloc; "{errno}\n")?;
    Ok(line.into_bytes())
}

/// A line that begins with `start` and ends with a number.
pub fn numbered_line(alloc: Global, start: Vec<u8>, number: u64) -> Result<Vec<u8>, Stop>
    ensures { IsText (start.items ++ decimal number) result }
{
    let mut line = start;
    let end = format!(in alloc; "{number}\n")?;
    line.extend_from_slice(end.as_bytes())?;
    Ok(line)
}

/// A name between two texts.
pub fn joined(alloc: Global, before: &str, name: &[u8], after: &str) -> Result<Vec<u8>, AllocError>
    ensures { IfOk result (λ line. line.items ≡ before.now ++ name.now ++ after.now) }
{
    let mut line = Vec::new(alloc);
    line.extend_from_slice(before.as_bytes())?;
    line.extend_from_slice(name)?;
    line.extend_from_slice(after.as_bytes())?;
    Ok(line)
}
