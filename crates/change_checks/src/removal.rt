//! The tests of changes that remove an entry.
ghost use Rattle.std.specs.Prelude.{◌≡◌, IfOk, IfErr, Ok};
ghost use Rattle.directory_tree.specs.Apply.{unlink, rmdir, at_one};
ghost use Rattle.path_lookup.specs.Target.{target_for};
ghost use Rattle.path_lookup.specs.WalkFaults.{IsFault};
ghost use Rattle.path_lookup.specs.World.{World, Narrows};
ghost use Rattle.change_checks.specs.Act.{acted, IsTested, NamesOnly, Fits};

use crate::act::Act;
use crate::look::ChangeLook;
use crate::place::find_place;
use directory_tree::Kind;
use names::{Errno, Path};
use path_lookup::{EndSlash, Look, WalkFault};

/// Tests the removal of the entry of a file or a link (unlink(2)).
pub(crate) fn check_unlink<'a, L: ChangeLook>(
    look: &mut L,
    path: &Path<'a>,
) -> Result<Act<'a, L::Entry>, WalkFault>
    ensures kept { L.kept look.new ≡ L.kept look.old }
    ensures narrows { Narrows (L.sees look.old) (L.sees look.new) }
    ensures keeps { (e : L.Entry) → L.knows look.old e → L.knows look.new e }
    ensures known { IfOk result (NamesOnly (L.knows look.new)) }
    ensures fits { IfOk result Fits }
    ensures acts { IfOk result (λ act. (w : World) → L.sees look.new w →
        at_one w.tree (target_for EndSlash.Refused path.now) (unlink w.tree)
        ≡ Ok (acted (λ e. L.means e w) w.tree act)) }
    ensures tested { IfOk result (λ act. (w : World) → L.sees look.new w → IsTested (λ e. L.means e w) w.tree (L.capacity look.new) act) }
    ensures fault { IfErr result (IsFault (L.lacks look.new) (L.sees look.new) (λ w.
        at_one w.tree (target_for EndSlash.Refused path.now) (unlink w.tree))) }
{
    let place = find_place(look, path, EndSlash::Refused)?;
    let Some(entry) = look.child(place.directory, place.component)? else {
        return Err(WalkFault::Refused(Errno::ENOENT));
    };
    match look.kind(entry)? {
        Kind::Directory => Err(WalkFault::Refused(Errno::EISDIR)),
        Kind::File | Kind::Link => Ok(Act::Remove(place, entry)),
    }
}

/// Tests the removal of an empty directory (rmdir(2)).
pub(crate) fn check_rmdir<'a, L: ChangeLook>(
    look: &mut L,
    path: &Path<'a>,
) -> Result<Act<'a, L::Entry>, WalkFault>
    ensures kept { L.kept look.new ≡ L.kept look.old }
    ensures narrows { Narrows (L.sees look.old) (L.sees look.new) }
    ensures keeps { (e : L.Entry) → L.knows look.old e → L.knows look.new e }
    ensures known { IfOk result (NamesOnly (L.knows look.new)) }
    ensures fits { IfOk result Fits }
    ensures acts { IfOk result (λ act. (w : World) → L.sees look.new w →
        at_one w.tree (target_for EndSlash.Allowed path.now) (rmdir w.tree)
        ≡ Ok (acted (λ e. L.means e w) w.tree act)) }
    ensures tested { IfOk result (λ act. (w : World) → L.sees look.new w → IsTested (λ e. L.means e w) w.tree (L.capacity look.new) act) }
    ensures fault { IfErr result (IsFault (L.lacks look.new) (L.sees look.new) (λ w.
        at_one w.tree (target_for EndSlash.Allowed path.now) (rmdir w.tree))) }
{
    let place = find_place(look, path, EndSlash::Allowed)?;
    let Some(entry) = look.child(place.directory, place.component)? else {
        return Err(WalkFault::Refused(Errno::ENOENT));
    };
    match look.kind(entry)? {
        Kind::File | Kind::Link => Err(WalkFault::Refused(Errno::ENOTDIR)),
        Kind::Directory => {
            if look.is_empty(entry)? {
                Ok(Act::Remove(place, entry))
            } else {
                Err(WalkFault::Refused(Errno::ENOTEMPTY))
            }
        }
    }
}
