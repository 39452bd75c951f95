//! A place between two tokens of a path, and what one more token makes of it.
ghost use Rattle.std.specs.Prelude.{◌≡◌, List, Option};
ghost use Rattle.rule_globs.specs.Tokens.{byte as byte_token, any_byte, bracket, stars as stars_token, opening, between, closing};
ghost use Rattle.rule_profile.specs.Readable.{can_stand, is_range};
ghost use Rattle.std.specs.List.{list_all};
ghost use Rattle.rule_making.specs.inner.TokenTests.{can_begin, can_end, is_end, passed, step};

use rule_globs::{ByteRange, Class, Stars};
use rule_profile::MOST_NESTED;

/// What may follow a place.
#[derive(Clone, Copy)]
pub(crate) enum Wanted {
    /// A plain slash: the path begins here.
    FirstSlash,
    Anything,
    /// No run of stars: there is one directly before it.
    NoRun,
    /// A plain slash or the path's end: a strict run is directly before it.
    SlashOrEnd,
    /// Neither of these nor a run: a run that isn't strict is before it, directly after a plain slash.
    Other,
}

impl Wanted {
    /// Whether a token that is no run may follow here; the flag says that it is a plain slash.
    fn can_begin(self, slash: bool) -> bool
        ensures { result ≡ can_begin self slash }
    {
        match self {
            Wanted::FirstSlash | Wanted::SlashOrEnd => slash,
            Wanted::Other => !slash,
            Wanted::Anything | Wanted::NoRun => true,
        }
    }

    /// Whether the path may end here.
    fn can_end(self) -> bool
        ensures { result ≡ can_end self }
    {
        matches!(self, Wanted::Anything | Wanted::NoRun | Wanted::SlashOrEnd)
    }
}

/// A place between two tokens, or before or after them all.
#[derive(Clone, Copy)]
pub(crate) struct Place {
    pub(crate) wanted: Wanted,
    /// Whether a plain slash is directly before it.
    pub(crate) after_slash: bool,
    /// How deep in groups it is.
    pub(crate) depth: usize,
    /// How many tokens more there is room for.
    pub(crate) room: usize,
}

impl Place {
    /// After a token that is no run; the flag says that it is a plain slash.
    fn passed(self, slash: bool, depth: usize) -> Option<Place>
        ensures { result ≡ passed self slash depth }
    {
        if self.room == 0 || !self.wanted.can_begin(slash) {
            return None;
        }
        Some(Place {
            wanted: Wanted::Anything,
            after_slash: slash,
            depth,
            room: self.room - 1,
        })
    }

    pub(crate) fn behind_byte(self, byte: u8) -> Option<Place>
        ensures { result ≡ step (byte_token byte) self }
    {
        if !can_stand(byte) {
            return None;
        }
        self.passed(byte == b'/', self.depth)
    }

    pub(crate) fn behind_any_byte(self) -> Option<Place>
        ensures { result ≡ step any_byte self }
    {
        self.passed(false, self.depth)
    }

    pub(crate) fn behind_class(self, class: &Class) -> Option<Place>
        ensures { result ≡ step (bracket class.now.negated class.now.ranges) self }
    {
        let ranges = class.ranges();
        if ranges.is_empty() || !are_ranges(ranges) {
            return None;
        }
        self.passed(false, self.depth)
    }

    pub(crate) fn behind_stars(self, stars: Stars) -> Option<Place>
        ensures { result ≡ step (stars_token stars.crosses_slashes stars.strict) self }
    {
        if self.room == 0
            || !matches!(self.wanted, Wanted::Anything)
            || stars.strict && !self.after_slash
        {
            return None;
        }
        Some(Place {
            wanted: match (stars.strict, self.after_slash) {
                (true, _) => Wanted::SlashOrEnd,
                (false, true) => Wanted::Other,
                (false, false) => Wanted::NoRun,
            },
            after_slash: false,
            depth: self.depth,
            room: self.room - 1,
        })
    }

    pub(crate) fn behind_opening(self) -> Option<Place>
        ensures { result ≡ step opening self }
    {
        if self.depth >= MOST_NESTED {
            return None;
        }
        self.passed(false, self.depth + 1)
    }

    pub(crate) fn behind_between(self) -> Option<Place>
        ensures { result ≡ step between self }
    {
        if self.depth == 0 {
            return None;
        }
        self.passed(false, self.depth)
    }

    pub(crate) fn behind_closing(self) -> Option<Place>
        ensures { result ≡ step closing self }
    {
        if self.depth == 0 {
            return None;
        }
        self.passed(false, self.depth - 1)
    }

    /// Whether the path may end here.
    pub(crate) fn is_end(self) -> bool
        ensures { result ≡ is_end self }
    {
        self.depth == 0 && self.wanted.can_end()
    }
}

/// Whether a byte may be in a range: it is neither 0 nor LF.
fn can_stand(byte: u8) -> bool
    ensures { result ≡ can_stand byte }
{
    byte != 0 && byte != b'\n'
}

fn are_ranges(ranges: &[ByteRange]) -> bool
    ensures { result ≡ list_all is_range ranges.now }
{
    ranges.iter().all(|range| can_stand(range.first)
        && can_stand(range.last)
        && range.first <= range.last)
}
