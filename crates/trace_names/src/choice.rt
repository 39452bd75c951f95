//! Which names of a list are written, and how.
ghost use Rattle.std.specs.Prelude.{◌≡◌};
ghost use Rattle.trace_names.specs.Choices.{choice_of, end_byte, is_selected, selection_of};

use names::Verdict;

/// Which names of a list are written.
#[derive(Clone, Copy, Debug, PartialEq, Eq)]
pub enum Selection {
    /// Those that are allowed.
    Allowed,
    /// Those that aren't.
    NotAllowed,
    /// All of them.
    All,
}

impl Selection {
    /// Whether a name with this verdict is written.
    pub(crate) fn takes(self, verdict: Verdict) -> bool
        ensures { result ≡ is_selected self verdict }
    {
        let allowed = matches!(verdict, Verdict::Allowed);
        match self {
            Selection::Allowed => allowed,
            Selection::NotAllowed => !allowed,
            Selection::All => true,
        }
    }
}

/// What ends each name, in the list and in what is written.
#[derive(Clone, Copy, Debug, PartialEq, Eq)]
pub enum NameEnd {
    /// A line feed: a name a line.
    LineFeed,
    /// The byte 0, which is in no name of a file.
    Null,
}

impl NameEnd {
    /// The byte.
    pub(crate) fn byte(self) -> u8
        ensures { result ≡ end_byte self }
    {
        match self {
            NameEnd::LineFeed => b'\n',
            NameEnd::Null => 0,
        }
    }
}

/// Which names of a list are written, and how.
#[derive(Clone, Copy, Debug, PartialEq, Eq)]
pub struct NamesChoice {
    /// Which names.
    pub selection: Selection,
    /// Whether each name is followed by its verdict.
    pub verdicts: bool,
    /// What ends each name.
    pub end: NameEnd,
}

impl NamesChoice {
    /// What the options of the command choose: names that are allowed, or with `not_allowed` those that aren't; with `verdicts` each
    /// with its verdict, and then, without `not_allowed`, all names; and with `null` names that are ended by the byte 0.
    pub fn of_options(not_allowed: bool, verdicts: bool, null: bool) -> NamesChoice
        ensures { result ≡ choice_of not_allowed verdicts null }
    {
        NamesChoice {
            selection: selection_of(not_allowed, verdicts),
            verdicts,
            end: if null {
                NameEnd::Null
            } else {
                NameEnd::LineFeed
            },
        }
    }
}

// Which names the options choose.
fn selection_of(not_allowed: bool, verdicts: bool) -> Selection
    ensures { result ≡ selection_of not_allowed verdicts }
{
    if not_allowed {
        Selection::NotAllowed
    } else if verdicts {
        Selection::All
    } else {
        Selection::Allowed
    }
}
