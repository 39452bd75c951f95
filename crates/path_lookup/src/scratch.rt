//! The text that is left to walk.
ghost use Rattle.std.specs.Prelude.{◌≡◌, ◌+◌, ◌-◌, ◌≤◌, ◌++◌, ℕ, List, [], IfOk, IfErr, length, drop};
ghost use Rattle.names.specs.Paths.{begins_with_slash};
ghost use Rattle.directory_tree.specs.declared.node.NodeKind.TheVariants.{Link};
ghost use Rattle.directory_tree.specs.Spots.{kind_at};
ghost use Rattle.path_lookup.specs.World.{World, Narrows, IsTorn};
ghost use Rattle.path_lookup.specs.inner.Steps.{most_left};

use crate::look::{Look, Torn};
use crate::walk::MOST_LINKS;
use directory_tree::LONGEST_LINK_TEXT;
use names::LONGEST_PATH;
use std::marker::Model;

/// A path has at most 4,095 bytes, and each of 40 links a text of at most 1,023.
const ROOM: usize = LONGEST_PATH + MOST_LINKS * LONGEST_LINK_TEXT;

/// The room that a walk needs: for a path and the texts of 40 links.
///
/// Its model is the text that is left to walk. That is at the end of the room, so that a step drops its front, and the text of a
/// link goes in front of it.
#[derive(Drop)]
pub struct Scratch {
    room: [u8; ROOM],
    start: usize,
    // The text of the link that was read last.
    text: [u8; LONGEST_LINK_TEXT],
}

impl Model for Scratch {
    ghost use Rattle.std.specs.Prelude.{List, ℕ, ◌≤◌, drop};
    ghost use Rattle.path_lookup.specs.inner.Steps.{most_left};

    ghost Value = { List ℕ };

    ghost view = { λ s. drop s.start s.room };

    ghost invariant = { λ s. s.start ≤ most_left };
}

impl Scratch {
    /// Room with no text in it.
    pub fn new() -> Scratch
        ensures { result ≡ [] }
    {
        Scratch {
            room: [0; ROOM],
            start: ROOM,
            text: [0; LONGEST_LINK_TEXT],
        }
    }

    /// The text that is left.
    pub(crate) fn left(&self) -> &[u8]
        ensures { result.now ≡ self.now }
    {
        &self.room[self.start..]
    }

    /// Starts with this text alone.
    pub(crate) fn begin(&mut self, text: &[u8])
        requires { length text.now ≤ most_left }
        ensures { self.new ≡ text.now }
    {
        self.start = put_in_front(&mut self.room, ROOM, text);
    }

    /// Drops the first `count` bytes of what is left.
    pub(crate) fn skip(&mut self, count: usize)
        requires { count ≤ length self.old }
        ensures { self.new ≡ drop count self.old }
    {
        self.start += count;
    }

    /// Reads the text of a link, puts it in front of what is left, and returns whether it begins with a slash.
    pub(crate) fn put_text_of<L: Look>(
        &mut self,
        look: &mut L,
        link: L::Entry,
    ) -> Result<bool, Torn>
        requires link { L.knows look.old link }
        requires room { length self.old + LONGEST_LINK_TEXT ≤ most_left }
        ensures kept { L.kept look.new ≡ L.kept look.old }
        ensures narrows { Narrows (L.sees look.old) (L.sees look.new) }
        ensures keeps { (e : L.Entry) → L.knows look.old e → L.knows look.new e }
        ensures longer { IfOk result (λ _. length self.new ≤ length self.old + LONGEST_LINK_TEXT) }
        ensures text { IfOk result (λ from_root. (w : World) (text : List ℕ) → L.sees look.new w → kind_at (L.means link w) ≡ Link text →
            (self.new ≡ text ++ self.old) × (begins_with_slash text ≡ from_root)) }
        ensures torn { IfErr result (λ _. IsTorn (L.lacks look.new) (L.sees look.new)) }
    {
        let length = look.link_text(link, &mut self.text)?;
        let text = &self.text[..length];
        self.start = put_in_front(&mut self.room, self.start, text);
        Ok(text.first() == Some(&b'/'))
    }
}

/// Writes a text in front of what begins at `start`, and returns where the text begins.
pub(crate) fn put_in_front(room: &mut [u8], start: usize, text: &[u8]) -> usize
    requires within { start ≤ length room.old }
    requires fits { length text.now ≤ start }
    ensures start { result ≡ start - length text.now }
    ensures text { drop result room.new ≡ text.now ++ drop start room.old }
{
    let begin = start - text.len();
    room[begin..start].copy_from_slice(text);
    begin
}
