//! The bytes at which the targets of a set may change.
ghost use Rattle.std.specs.Prelude.{◌≡◌, slice_set, true};
ghost use Rattle.glob_automaton.specs.inner.Alike.{AreEdges, AreNamed};
ghost use Rattle.glob_automaton.specs.inner.ChartStates.{ArePlaces};
ghost use Rattle.glob_automaton.specs.inner.Marks.{AreMarks};

use crate::byte_bits::ByteBits;
use crate::bytes::ByteClasses;
use crate::chart::{Chart, Label};

/// What the places of a set say of bytes.
#[derive(Clone, Copy)]
pub(crate) struct Marks {
    /// The bytes that places of the set take alone.
    pub named: [bool; 256],
    /// The bytes at which the target may change. Any other byte has the target of the one before: most bytes do.
    pub edges: ByteBits,
}

impl Marks {
    /// The marks of a set.
    pub(crate) fn of(chart: &Chart, classes: &ByteClasses, set: &[usize]) -> Marks
        requires set { ArePlaces chart.now set.now }
        requires edges { AreEdges classes.now.least classes.now.edges.words }
        ensures named { AreNamed chart.now set.now result.named }
        ensures marks { AreMarks classes.now.least result }
    {
        let mut marks = Marks {
            named: [false; 256],
            edges: classes.edges,
        };
        for place in set {
            if let Label::Byte(byte) = chart.places[*place].takes {
                marks.add(classes, byte);
            }
        }
        marks
    }

    // Marks a byte that a place takes alone, and the byte after it. The classes are for the contract alone.
    fn add(&mut self, classes: &ByteClasses, byte: u8)
        requires { AreMarks classes.now.least self.old }
        ensures named { self.new.named ≡ slice_set self.old.named byte true }
        ensures marks { AreMarks classes.now.least self.new }
    {
        let _ = classes;
        self.named[usize::from(byte)] = true;
        self.edges.add(byte);
        if byte < 255 {
            self.edges.add(byte + 1);
        }
    }
}
