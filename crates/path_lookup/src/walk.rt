//! The walk along a path.
ghost use Rattle.std.specs.Prelude.{◌≡◌, ◌≤◌, ◌+◌, ◌*◌, ◌<◌, ◌++◌, ℕ, List, IfOk, IfErr, Ok, true, length};
ghost use Rattle.directory_tree.specs.Name.{name_of};
ghost use Rattle.directory_tree.specs.Walk.{walk};
ghost use Rattle.directory_tree.specs.Spots.{kind_at};
ghost use Rattle.path_lookup.specs.World.{World, Narrows, IsTorn};
ghost use Rattle.directory_tree.specs.declared.node.NodeKind.TheVariants.{Link};
ghost use Rattle.path_lookup.specs.WalkFaults.{IsFault};
ghost use Rattle.path_lookup.specs.inner.Steps.{IsDirectory, ComesTo, GoesOn, HasRoom, most_left, onward_from, progress_entry, start_at};

use crate::arrival::{Arrival, arrive};
use crate::direct::{Course, walk_directly};
use crate::fault::WalkFault;
use crate::look::{Look, Torn};
use crate::scratch::Scratch;
use directory_tree::{LONGEST_LINK_TEXT, Last};
use names::{Errno, LONGEST_PATH, Path, split_component};

/// The most links of one walk (path_resolution(7)).
pub(crate) const MOST_LINKS: usize = 40;

/// Where a path leads (path_resolution(7)). Symbolic links on the way are followed, at most 40; `last` says whether one that the
/// last component names is followed, too. Allocates nothing.
pub fn resolve<L: Look>(
    look: &mut L,
    path: &Path<'_>,
    last: Last,
    scratch: &mut Scratch,
) -> Result<L::Entry, WalkFault>
    ensures kept { L.kept look.new ≡ L.kept look.old }
    ensures narrows { Narrows (L.sees look.old) (L.sees look.new) }
    ensures keeps { (e : L.Entry) → L.knows look.old e → L.knows look.new e }
    ensures known { IfOk result (L.knows look.new) }
    ensures found { IfOk result (λ e. (w : World) → L.sees look.new w → walk w.tree last path.now ≡ Ok (L.means e w)) }
    ensures fault { IfErr result (IsFault (L.lacks look.new) (L.sees look.new) (λ w. walk w.tree last path.now)) }
{
    let Found { entry, is_named: _ } = resolve_named(look, path, last, scratch)?;
    Ok(entry)
}

/// What a path leads to.
pub(crate) struct Found<E: Copy> {
    pub entry: E,
    /// Whether the path is the entry's name.
    pub is_named: bool,
}

/// Where a path leads, as [`resolve`] finds it, and whether the path was seen to be the name of what is there. Allocates nothing.
pub(crate) fn resolve_named<L: Look>(
    look: &mut L,
    path: &Path<'_>,
    last: Last,
    scratch: &mut Scratch,
) -> Result<Found<L::Entry>, WalkFault>
    ensures kept { L.kept look.new ≡ L.kept look.old }
    ensures narrows { Narrows (L.sees look.old) (L.sees look.new) }
    ensures keeps { (e : L.Entry) → L.knows look.old e → L.knows look.new e }
    ensures known { IfOk result (λ found. L.knows look.new found.entry) }
    ensures found { IfOk result (λ found. (w : World) → L.sees look.new w → walk w.tree last path.now ≡ Ok (L.means found.entry w)) }
    ensures named { IfOk result (λ found. found.is_named ≡ true → (w : World) → L.sees look.new w →
        name_of w.tree (L.means found.entry w) ≡ path.now) }
    ensures fault { IfErr result (IsFault (L.lacks look.new) (L.sees look.new) (λ w. walk w.tree last path.now)) }
{
    let course = walk_directly(look, path.as_bytes(), last)?;
    match course {
        Course::Named(entry) => Ok(Found {
            entry,
            is_named: true,
        }),
        Course::Link(directory, link, rest) => {
            scratch.begin(rest);
            let next = follow(look, directory, link, scratch)?;
            let entry = resolve_from(look, next, MOST_LINKS - 1, last, scratch)?;
            Ok(Found {
                entry,
                is_named: false,
            })
        }
        Course::Left(directory, left) => {
            scratch.begin(left);
            let entry = resolve_from(look, directory, MOST_LINKS, last, scratch)?;
            Ok(Found {
                entry,
                is_named: false,
            })
        }
    }
}

/// Where any text leads, as [`resolve`] does for a path. Allocates nothing.
pub(crate) fn resolve_text<L: Look>(
    look: &mut L,
    text: &[u8],
    last: Last,
    scratch: &mut Scratch,
) -> Result<L::Entry, WalkFault>
    requires { length text.now ≤ LONGEST_PATH }
    ensures kept { L.kept look.new ≡ L.kept look.old }
    ensures narrows { Narrows (L.sees look.old) (L.sees look.new) }
    ensures keeps { (e : L.Entry) → L.knows look.old e → L.knows look.new e }
    ensures known { IfOk result (L.knows look.new) }
    ensures found { IfOk result (λ e. (w : World) → L.sees look.new w → walk w.tree last text.now ≡ Ok (L.means e w)) }
    ensures fault { IfErr result (IsFault (L.lacks look.new) (L.sees look.new) (λ w. walk w.tree last text.now)) }
{
    scratch.begin(text);
    let root = look.root();
    resolve_from(look, root, MOST_LINKS, last, scratch)
}

// Where the text that is left leads from a directory, with this many links left.
fn resolve_from<L: Look>(
    look: &mut L,
    start: L::Entry,
    most_links: usize,
    last: Last,
    scratch: &mut Scratch,
) -> Result<L::Entry, WalkFault>
    requires known { L.knows look.old start }
    requires directory { (w : World) → L.sees look.old w → IsDirectory w.tree (L.means start w) }
    requires room { HasRoom (length scratch.old) most_links }
    ensures kept { L.kept look.new ≡ L.kept look.old }
    ensures narrows { Narrows (L.sees look.old) (L.sees look.new) }
    ensures keeps { (e : L.Entry) → L.knows look.old e → L.knows look.new e }
    ensures known { IfOk result (L.knows look.new) }
    ensures found { IfOk result (λ e. (w : World) → L.sees look.new w →
        onward_from w last most_links (L.means start w) scratch.old ≡ Ok (L.means e w)) }
    ensures fault { IfErr result (IsFault (L.lacks look.new) (L.sees look.new)
        (λ w. onward_from w last most_links (L.means start w) scratch.old)) }
{
    let mut directory = start;
    let mut links = most_links;
    loop {
        match step(look, directory, links, last, scratch)? {
            Progress::Done(entry) => return Ok(entry),
            Progress::At(next, links_left) => {
                directory = next;
                links = links_left;
            }
        }
    }
}

/// How far a walk has come.
enum Progress<E: Copy> {
    /// It continues from this directory, with this many links left.
    At(E, usize),
    /// It leads here.
    Done(E),
}

// Takes the first component that is left, if there is one.
fn step<L: Look>(
    look: &mut L,
    directory: L::Entry,
    links: usize,
    last: Last,
    scratch: &mut Scratch,
) -> Result<Progress<L::Entry>, WalkFault>
    requires known { L.knows look.old directory }
    requires directory { (w : World) → L.sees look.old w → IsDirectory w.tree (L.means directory w) }
    requires room { HasRoom (length scratch.old) links }
    ensures kept { L.kept look.new ≡ L.kept look.old }
    ensures narrows { Narrows (L.sees look.old) (L.sees look.new) }
    ensures keeps { (e : L.Entry) → L.knows look.old e → L.knows look.new e }
    ensures known { IfOk result (λ progress. L.knows look.new (progress_entry progress)) }
    ensures goes { IfOk result (GoesOn (length scratch.old) (length scratch.new) links) }
    ensures answer { IfOk result (λ progress. (w : World) → L.sees look.new w →
        ComesTo L.means w last scratch.new (onward_from w last links (L.means directory w) scratch.old) progress) }
    ensures fault { IfErr result (IsFault (L.lacks look.new) (L.sees look.new)
        (λ w. onward_from w last links (L.means directory w) scratch.old)) }
{
    let left = scratch.left();
    let Some((component, rest)) = split_component(left) else {
        return Ok(Progress::Done(directory));
    };
    let taken = left.len() - rest.len();
    let arrival = arrive(look, directory, component, last, rest.is_empty())?;
    scratch.skip(taken);
    match arrival {
        Arrival::Directory(next) => Ok(Progress::At(next, links)),
        Arrival::End(entry) => Ok(Progress::Done(entry)),
        Arrival::Link(_) if links == 0 => Err(WalkFault::Refused(Errno::ELOOP)),
        Arrival::Link(link) => {
            let next = follow(look, directory, link, scratch)?;
            Ok(Progress::At(next, links - 1))
        }
    }
}

// Puts the text of a link in front of what is left, and returns the directory where it begins.
fn follow<L: Look>(
    look: &mut L,
    directory: L::Entry,
    link: L::Entry,
    scratch: &mut Scratch,
) -> Result<L::Entry, Torn>
    requires directory { L.knows look.old directory }
    requires link { L.knows look.old link }
    requires room { length scratch.old + LONGEST_LINK_TEXT ≤ most_left }
    ensures kept { L.kept look.new ≡ L.kept look.old }
    ensures narrows { Narrows (L.sees look.old) (L.sees look.new) }
    ensures keeps { (e : L.Entry) → L.knows look.old e → L.knows look.new e }
    ensures known { IfOk result (L.knows look.new) }
    ensures longer { IfOk result (λ start. length scratch.new ≤ length scratch.old + LONGEST_LINK_TEXT) }
    ensures text { IfOk result (λ start. (w : World) (text : List ℕ) → L.sees look.new w → kind_at (L.means link w) ≡ Link text →
        (scratch.new ≡ text ++ scratch.old) × (L.means start w ≡ start_at text (L.means directory w))) }
    ensures torn { IfErr result (λ _. IsTorn (L.lacks look.new) (L.sees look.new)) }
{
    if scratch.put_text_of(look, link)? {
        Ok(look.root())
    } else {
        Ok(directory)
    }
}
