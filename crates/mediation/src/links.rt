//! A judged link, over any look at a tree.
ghost use Rattle.std.specs.Prelude.{◌≡◌, ◌≤◌, IfOk, IfErr, Ok};
ghost use Rattle.names.specs.Limits.{longest_path};
ghost use Rattle.mediation.specs.Judge.{verdict_by};
ghost use Rattle.mediation.specs.Links.{allowed_by, judged_by_name};
ghost use Rattle.mediation.specs.Judgments.{link_of};
ghost use Rattle.mediation.specs.Profiles.{judge_of};
ghost use Rattle.names.specs.Permissions.{only};
ghost use Rattle.names.specs.declared.permissions.Permission.TheVariants as permission;
ghost use Rattle.directory_tree.specs.Place.{named_place};
ghost use Rattle.path_lookup.specs.WalkFaults.{IsFault};
ghost use Rattle.path_lookup.specs.World.{World, Narrows};
ghost use Rattle.rule_judge.specs.Links.{link_verdict};

use crate::profiles::{allowed_by, judge_name};
use directory_tree::Last;
use matcher::AnyProfile;
use names::{Path, Permission, Perms};
use path_lookup::{Look, NAME_ROOM, Scratch, WalkFault, name_of, name_of_place, resolve};
use rule_judge::{LinkVerdict, judge_link};

/// The verdict on a link, the node of its file, and the length of its new entry's name.
#[derive(Clone, Copy, Debug, PartialEq, Eq)]
pub struct JudgedLink {
    pub verdict: LinkVerdict,
    pub node: u64,
    pub name_length: usize,
}

/// Judges a link of the file that one path leads to, by the name of the place that the other path names. That name goes to
/// the front of `room`. Nothing is allocated.
///
/// The result holds for every tree that the look still sees; on `Torn` there is no such tree, or the look lacks something.
/// Whether the tree would accept the link isn't checked.
pub fn judge_names<L: Look>(
    look: &mut L,
    profile: &AnyProfile,
    old: &Path<'_>,
    new: &Path<'_>,
    scratch: &mut Scratch,
    room: &mut [u8; NAME_ROOM],
) -> Result<JudgedLink, WalkFault>
    ensures kept { L.kept look.new ≡ L.kept look.old }
    ensures narrows { Narrows (L.sees look.old) (L.sees look.new) }
    ensures keeps { (e : L.Entry) → L.knows look.old e → L.knows look.new e }
    ensures fits { IfOk result (λ judged. judged.name_length ≤ longest_path) }
    ensures answer { IfOk result (λ judged. (w : World) → L.sees look.new w →
        judged_by_name (judge_of profile.now) w.tree old.now (named_place w.tree new.now) ≡ Ok (link_of room.new judged)) }
    ensures fault { IfErr result (IsFault (L.lacks look.new) (L.sees look.new)
        (λ w. judged_by_name (judge_of profile.now) w.tree old.now (named_place w.tree new.now))) }
{
    let file = resolve(look, old, Last::Stay, scratch)?;
    let node = look.node(file)?;
    let old_length = name_of(look, file, room)?;
    let old_allowed = allowed_by(profile, &room[..old_length]);
    let name_length = name_of_place(look, new, scratch, room)?;
    Ok(JudgedLink {
        verdict: judge_new_name(profile, old_allowed, &room[..name_length]),
        node,
        name_length,
    })
}

/// The verdict on a link's new name, given what the old one is allowed.
fn judge_new_name(profile: &AnyProfile, old_allowed: Perms, name: &[u8]) -> LinkVerdict
    ensures { result ≡ link_verdict old_allowed (allowed_by (judge_of profile.now) name.now)
        (verdict_by (judge_of profile.now) name.now (only permission.Link)) }
{
    let link = Perms::NONE.with(Permission::Link);
    judge_link(
        old_allowed,
        allowed_by(profile, name),
        judge_name(profile, name, link),
    )
}
