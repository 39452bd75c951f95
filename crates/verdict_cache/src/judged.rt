//! What is kept under a question.
ghost use Rattle.verdict_cache.specs.Looks.{IsShown};

use names::Verdict;
use path_lookup::NAME_ROOM;
use std::marker::Model;

/// A verdict that was found.
#[derive(Clone, Copy)]
pub struct Found {
    pub verdict: Verdict,
    pub node: u64,
    /// The length of the name that was judged, at the front of the room.
    pub name_length: usize,
}

#[derive(Drop)]
pub(crate) struct Judged {
    pub(crate) verdict: Verdict,
    pub(crate) node: u64,
    pub(crate) name: Vec<u8>,
}

impl Model for Judged {
    ghost use Rattle.names.specs.Limits.{longest_path};
    ghost use Rattle.std.specs.Prelude.{◌≤◌, length};
    ghost use Rattle.verdict_cache.specs.Questions.{Kept};

    ghost Value = { Kept };

    ghost view = { λ j. record { verdict = j.verdict; node = j.node; name = j.name.items } };

    ghost invariant = { λ j. length j.name.items ≤ longest_path };
}

impl Judged {
    /// Copies the name to the front of the room.
    pub(crate) fn show(&self, room: &mut [u8; NAME_ROOM]) -> Found
        ensures { IsShown self.now result room.new }
    {
        let name_length = self.name.len();
        room[..name_length].copy_from_slice(&self.name);
        Found {
            verdict: self.verdict,
            node: self.node,
            name_length,
        }
    }
}
