//! Spans of a text.
ghost use Rattle.std.specs.Prelude.{◌≡◌};

use apparmor_rules::{Effect, What};
use std::marker::Model;

/// What an account reports of a span: the constructs in it, in the order of their parts, and the effect of not keeping them as
/// they were.
#[derive(Debug, Drop)]
pub struct Told {
    whats: Vec<What>,
    effect: Effect,
}

impl Model for Told {
    ghost use Rattle.import_spans.specs.ToldValues.{ToldValue};

    ghost Value = { ToldValue };

    ghost view = { λ t. record { whats = t.whats.items; effect = t.effect } };
}

impl Told {
    pub(crate) fn new(whats: Vec<What>, effect: Effect) -> Told
        ensures { result ≡ record { whats = whats.items; effect = effect } }
    {
        Told { whats, effect }
    }

    /// The constructs in the span.
    pub fn whats(&self) -> &[What]
        ensures { result.now ≡ self.now.whats }
    {
        &self.whats
    }

    /// The effect of not keeping them as they were.
    pub fn effect(&self) -> Effect
        ensures { result ≡ self.now.effect }
    {
        self.effect
    }
}

/// What becomes of a span.
#[derive(Debug, Drop)]
pub enum SpanKind {
    /// Its meaning is kept.
    Kept,
    /// It is white space and comments.
    Blank,
    /// An account reports it.
    Told(Told),
}

/// Some bytes of a text.
#[derive(Debug, Drop)]
pub struct Span {
    /// How many bytes are before the first.
    pub start: usize,
    /// How many bytes are before its end.
    pub end: usize,
    pub kind: SpanKind,
}
