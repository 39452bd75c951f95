//! The file that an open reaches, and the verdict on it, over any look at a tree.
ghost use Rattle.std.specs.Prelude.{◌≡◌, ◌≤◌, IfOk, IfErr, Ok};
ghost use Rattle.names.specs.Limits.{longest_path};
ghost use Rattle.mediation.specs.Judgments.{judged_of, reached_of};
ghost use Rattle.mediation.specs.Opens.{opened, can_be_asked, reached, reached_at, reached_by_path};
ghost use Rattle.mediation.specs.Profiles.{judge_of};
ghost use Rattle.path_lookup.specs.WalkFaults.{IsFault};
ghost use Rattle.path_lookup.specs.World.{World, Narrows};

use crate::profiles::judge_name;
use directory_tree::Last;
use matcher::AnyProfile;
use names::{Errno, Path, Permission, Perms, Verdict};
use path_lookup::{Look, NAME_ROOM, Scratch, WalkFault, reach};

/// The node of a file that was reached, and the length of its name.
#[derive(Clone, Copy, Debug, PartialEq, Eq)]
pub struct Reached {
    pub node: u64,
    pub name_length: usize,
}

/// The verdict on a file that was reached, its node, and the length of its name.
#[derive(Clone, Copy, Debug, PartialEq, Eq)]
pub struct Judged {
    pub verdict: Verdict,
    pub node: u64,
    pub name_length: usize,
}

/// Judges the file that a path leads to. Its name goes to the front of `room`. Nothing is allocated.
///
/// The result holds for every tree that the look still sees (open(2), path_resolution(7)); on `Torn` there is no such tree, or
/// the look lacks something.
pub fn judge_file<L: Look>(
    look: &mut L,
    profile: &AnyProfile,
    path: &[u8],
    ask: Perms,
    scratch: &mut Scratch,
    room: &mut [u8; NAME_ROOM],
) -> Result<Judged, WalkFault>
    ensures kept { L.kept look.new ≡ L.kept look.old }
    ensures narrows { Narrows (L.sees look.old) (L.sees look.new) }
    ensures keeps { (e : L.Entry) → L.knows look.old e → L.knows look.new e }
    ensures fits { IfOk result (λ judged. judged.name_length ≤ longest_path) }
    ensures answer { IfOk result (λ judged. (w : World) → L.sees look.new w →
        opened w.tree (judge_of profile.now) path.now ask ≡ Ok (judged_of room.new judged)) }
    ensures fault { IfErr result (IsFault (L.lacks look.new) (L.sees look.new)
        (λ w. opened w.tree (judge_of profile.now) path.now ask)) }
{
    let Reached { node, name_length } = reach_file(look, path, ask, scratch, room)?;
    Ok(Judged {
        verdict: judge_name(profile, &room[..name_length], ask),
        node,
        name_length,
    })
}

/// Finds the file that a path leads to, if an open may ask for these permissions. Its name goes to the front of `room`. Nothing
/// is allocated.
///
/// The result holds for every tree that the look still sees (open(2), path_resolution(7)); on `Torn` there is no such tree, or
/// the look lacks something.
pub fn reach_file<L: Look>(
    look: &mut L,
    path: &[u8],
    ask: Perms,
    scratch: &mut Scratch,
    room: &mut [u8; NAME_ROOM],
) -> Result<Reached, WalkFault>
    ensures kept { L.kept look.new ≡ L.kept look.old }
    ensures narrows { Narrows (L.sees look.old) (L.sees look.new) }
    ensures keeps { (e : L.Entry) → L.knows look.old e → L.knows look.new e }
    ensures fits { IfOk result (λ file. file.name_length ≤ longest_path) }
    ensures answer { IfOk result (λ file. (w : World) → L.sees look.new w →
        reached w.tree path.now ask ≡ Ok (reached_of room.new file)) }
    ensures fault { IfErr result (IsFault (L.lacks look.new) (L.sees look.new) (λ w. reached w.tree path.now ask)) }
{
    if !can_be_asked(ask) {
        return Err(WalkFault::Refused(Errno::EINVAL));
    }
    match Path::check(path) {
        Ok(path) => reach_path(look, &path, scratch, room),
        Err(errno) => Err(WalkFault::Refused(errno)),
    }
}

/// Whether something is asked, and not to link: links are judged by a separate call.
pub fn can_be_asked(ask: Perms) -> bool
    ensures { result ≡ can_be_asked ask }
{
    !ask.is_empty() && !ask.contains(Permission::Link)
}

/// Finds the file that a checked path leads to, as [`reach_file`] does once it has tested what is asked and the path. No memory
/// is taken.
pub fn reach_path<L: Look>(
    look: &mut L,
    path: &Path<'_>,
    scratch: &mut Scratch,
    room: &mut [u8; NAME_ROOM],
) -> Result<Reached, WalkFault>
    ensures kept { L.kept look.new ≡ L.kept look.old }
    ensures narrows { Narrows (L.sees look.old) (L.sees look.new) }
    ensures keeps { (e : L.Entry) → L.knows look.old e → L.knows look.new e }
    ensures fits { IfOk result (λ file. file.name_length ≤ longest_path) }
    ensures answer { IfOk result (λ file. (w : World) → L.sees look.new w →
        reached_by_path w.tree path.now ≡ Ok (reached_of room.new file)) }
    ensures fault { IfErr result (IsFault (L.lacks look.new) (L.sees look.new) (λ w. reached_by_path w.tree path.now)) }
{
    let found = reach(look, path, Last::Follow, scratch, room)?;
    let node = look.node(found.entry)?;
    let name_length = found.length;
    Ok(Reached { node, name_length })
}
