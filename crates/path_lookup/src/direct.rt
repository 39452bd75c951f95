//! The walk along a path that is, so far, the name of the directory that it has reached.
ghost use Rattle.std.specs.Prelude.{◌≡◌, ◌≤◌, ℕ, List, IfOk, IfErr, IfSome, length};
ghost use Rattle.directory_tree.specs.Walk.{walk};
ghost use Rattle.path_lookup.specs.World.{World, Narrows};
ghost use Rattle.path_lookup.specs.WalkFaults.{IsFault};
ghost use Rattle.path_lookup.specs.inner.Steps.{IsOwnComponent, LeadsTo, IsLeftOf, IsKnown};

use crate::arrival::{Arrival, arrive_down};
use crate::fault::WalkFault;
use crate::look::Look;
use directory_tree::Last;
use names::{LONGEST_PATH, Slash, split_at};

/// How far a path leads by entries alone.
pub(crate) enum Course<'a, E: Copy> {
    /// It leads to this entry, whose name it is.
    Named(E),
    /// It leads to this directory and, there, to this link, after which the walk continues along this text.
    Link(E, E, &'a [u8]),
    /// It leads to this directory, from which the walk continues along this text: it begins with what is no component that an
    /// entry can have, or it is empty.
    Left(E, &'a [u8]),
}

/// Follows a text from the root by its components, as long as each is one after a single slash, and neither `.` nor `..`, nor the
/// component of a link that is to be followed. Allocates nothing.
pub(crate) fn walk_directly<'a, L: Look>(
    look: &mut L,
    text: &'a [u8],
    last: Last,
) -> Result<Course<'a, L::Entry>, WalkFault>
    requires { length text.now ≤ LONGEST_PATH }
    ensures kept { L.kept look.new ≡ L.kept look.old }
    ensures narrows { Narrows (L.sees look.old) (L.sees look.new) }
    ensures keeps { (e : L.Entry) → L.knows look.old e → L.knows look.new e }
    ensures known { IfOk result (IsKnown (L.knows look.new)) }
    ensures leads { IfOk result (λ course. (w : World) → L.sees look.new w → LeadsTo L.means w last text.now course) }
    ensures left { IfOk result (IsLeftOf text.now) }
    ensures fault { IfErr result (IsFault (L.lacks look.new) (L.sees look.new) (λ w. walk w.tree last text.now)) }
{
    let mut directory = look.root();
    let mut left = text;
    while let Some((component, rest)) = own_component(left) {
        let arrival = arrive_down(look, directory, component, last, rest.is_empty())?;
        match arrival {
            Arrival::Directory(next) => {
                directory = next;
                left = rest;
            }
            Arrival::End(entry) => return Ok(Course::Named(entry)),
            Arrival::Link(link) => return Ok(Course::Link(directory, link, rest)),
        }
    }
    Ok(Course::Left(directory, left))
}

// The component at the start of a text, after one slash, and the text after it; none if no entry can have such a component.
fn own_component(left: &[u8]) -> Option<(&[u8], &[u8])>
    ensures { IfSome result (λ cut. IsOwnComponent left.now cut.0.now cut.1.now) }
{
    if left.first() != Some(&b'/') {
        return None;
    }
    let (component, rest) = split_at::<Slash>(&left[1..]);
    if component.is_empty() || component == b".".as_slice() || component == b"..".as_slice() {
        return None;
    }
    Some((component, rest))
}
