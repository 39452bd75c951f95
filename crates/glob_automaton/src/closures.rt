//! What is live at the entries of a chart.
ghost use Rattle.std.specs.Prelude.{◌≡◌, ◌↔◌, ◌⊎◌, ◌<◌, ℕ, List, false, true, length, IfOk, OnOk};
ghost use Rattle.glob_automaton.specs.declared.chart.Entry.{Entry};
ghost use Rattle.glob_automaton.specs.inner.Chart.{IsIn, IsOrdered};
ghost use Rattle.glob_automaton.specs.inner.GatheredSets.{AreClosures};
ghost use Rattle.glob_automaton.specs.inner.PlaceBits.{has_place, AreWithin};

use crate::chart::{Chart, Entry};
use crate::place_bits::{Closure, PlaceBits};
use std::alloc::{AllocError, Global};

/// For each entry of a chart the places that are live there.
#[derive(Drop)]
pub(crate) struct Closures {
    closures: Vec<Closure>,
}

impl Closures {
    /// The closures of all entries. An entry refers only to entries before it, so its closure is made from theirs.
    pub(crate) fn of(alloc: Global, chart: &Chart) -> Result<Closures, AllocError>
        requires { IsOrdered chart.now.entries.items }
        ensures long { IfOk result (λ c. length c.closures.items ≡ length chart.now.entries.items) }
        ensures each { IfOk result (AreClosures chart.now.entries.items) }
    {
        let mut closures = Closures {
            closures: Vec::with_capacity(alloc, chart.entries.len())?,
        };
        let mut bits = PlaceBits::new(alloc);
        for entry in 0..chart.entries.len() {
            bits.clear();
            closures.gather(chart, entry, &mut bits)?;
            closures.closures.push(bits.closure(alloc)?)?;
        }
        Ok(closures)
    }

    // Gathers what is live at the next entry.
    fn gather(&self, chart: &Chart, entry: usize, bits: &mut PlaceBits) -> Result<(), AllocError>
        requires ordered { IsOrdered chart.now.entries.items }
        requires there { entry < length chart.now.entries.items }
        requires next { length self.now.closures.items ≡ entry }
        requires each { AreClosures chart.now.entries.items self.now }
        requires within { AreWithin bits.old }
        requires none { (q : ℕ) → has_place bits.old.words.items q ≡ false }
        ensures within { OnOk result (AreWithin bits.new) }
        ensures places { OnOk result ((q : ℕ) → (has_place bits.new.words.items q ≡ true) ↔ IsIn chart.now.entries.items entry q) }
    {
        match chart.entries[entry] {
            Entry::Nothing => Ok(()),
            Entry::Place(place) => bits.add(place),
            Entry::Run { place, behind } => {
                bits.add(place)?;
                self.join(behind, bits)
            }
            Entry::Either(one, other) => {
                self.join(one, bits)?;
                self.join(other, bits)
            }
        }
    }

    /// Adds what is live at an entry to these places.
    pub(crate) fn join(&self, entry: usize, bits: &mut PlaceBits) -> Result<(), AllocError>
        requires there { entry < length self.now.closures.items }
        requires within { AreWithin bits.old }
        ensures within { OnOk result (AreWithin bits.new) }
        ensures places { OnOk result ((entries : List Entry) → AreClosures entries self.now →
            (q : ℕ) → (has_place bits.new.words.items q ≡ true) ↔ ((has_place bits.old.words.items q ≡ true) ⊎ IsIn entries entry q)) }
    {
        bits.join(&self.closures[entry])
    }
}
