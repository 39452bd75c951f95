//! What restating changes, for the subject that it is done for and for the other.
ghost use Rattle.std.specs.Prelude.{◌≡◌, ◌↔◌, IsTrue, Some};
ghost use Rattle.apparmor_rules.specs.Changes.{effect};
ghost use Rattle.apparmor_rules.specs.EffectText.{effect_text};

use crate::shape::RuleShape;
use crate::subject::Subject;
use std::fmt;

/// What restating does to what is allowed to a subject.
#[derive(Clone, Copy, Debug, PartialEq, Eq)]
pub enum Extent {
    /// The same is allowed.
    Exact,
    /// Perhaps more is allowed, and nothing less.
    Wider,
    /// Perhaps less is allowed, and nothing more.
    Narrower,
}

/// What restating for the chosen subject changes for it, and for the other one. It is printed as `exact`, `wider` or
/// `narrower` by what it changes for the chosen subject; where that is nothing, by what it changes for the other one, as in
/// `wider for others`.
#[derive(Clone, Copy, Debug, PartialEq, Eq)]
pub struct Effect {
    /// The subject that rules are restated for.
    pub chosen: Subject,
    /// What changes for it.
    pub on_chosen: Extent,
    /// What changes for the other one.
    pub on_other: Extent,
}

impl Effect {
    /// The effect of restating a rule for the chosen subject, or of leaving it out.
    pub fn of(chosen: Subject, shape: RuleShape) -> Effect
        ensures { result ≡ effect chosen shape }
    {
        Effect {
            chosen,
            on_chosen: shape.change(chosen, chosen),
            on_other: shape.change(chosen, chosen.other()),
        }
    }

    /// Whether nothing changes for the chosen subject, which is what a strict restating asks for.
    pub fn is_strictly_exact(self) -> bool
        ensures { IsTrue result ↔ (self.on_chosen ≡ Extent.Exact) }
    {
        self.on_chosen == Extent::Exact
    }
}

impl fmt::Display for Effect {
    ghost output = { λ effect. Some (effect_text effect.chosen effect.on_chosen effect.on_other) };

    fn fmt<W: fmt::Write>(&self, f: &mut fmt::Formatter<W>) -> fmt::Result {
        match (self.on_chosen, self.on_other, self.chosen) {
            (Extent::Wider, _, _) => write!(f, "wider"),
            (Extent::Narrower, _, _) => write!(f, "narrower"),
            (Extent::Exact, Extent::Exact, _) => write!(f, "exact"),
            (Extent::Exact, Extent::Wider, Subject::Owner) => write!(f, "wider for others"),
            (Extent::Exact, Extent::Narrower, Subject::Owner) => write!(f, "narrower for others"),
            (Extent::Exact, Extent::Wider, Subject::Other) => write!(f, "wider for owners"),
            (Extent::Exact, Extent::Narrower, Subject::Other) => write!(f, "narrower for owners"),
        }
    }
}
