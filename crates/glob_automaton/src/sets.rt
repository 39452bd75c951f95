//! Sets of live places.
ghost use Rattle.std.specs.Prelude.{◌≡◌, ◌↔◌, ◌⊎◌, ◌<◌, ℕ, length, IfOk, OnOk, Contains};
ghost use Rattle.glob_automaton.specs.inner.Chart.{IsIn, IsOrdered};
ghost use Rattle.glob_automaton.specs.inner.GatheredSets.{IsGathering, IsAscending, Holds};

use crate::chart::Chart;
use crate::closures::Closures;
use crate::place_bits::PlaceBits;
use std::alloc::{AllocError, Global};

/// Gathers a set of places: those that are live at some entries.
#[derive(Drop)]
pub(crate) struct Gathering {
    closures: Closures,
    bits: PlaceBits,
    places: Vec<usize>,
}

impl Gathering {
    /// The empty set.
    pub(crate) fn new(alloc: Global, chart: &Chart) -> Result<Gathering, AllocError>
        requires { IsOrdered chart.now.entries.items }
        ensures { IfOk result (IsGathering chart.now) }
    {
        Ok(Gathering {
            closures: Closures::of(alloc, chart)?,
            bits: PlaceBits::new(alloc),
            places: Vec::new(alloc),
        })
    }

    /// Begins again with the empty set.
    pub(crate) fn clear(&mut self, chart: &Chart)
        requires { IsGathering chart.now self.old }
        ensures gathering { IsGathering chart.now self.new }
        ensures empty { (q : ℕ) → ¬ (Holds self.new q) }
    {
        self.bits.clear();
    }

    /// Adds the places that are live at an entry.
    pub(crate) fn enter(&mut self, chart: &Chart, entry: usize) -> Result<(), AllocError>
        requires gathering { IsGathering chart.now self.old }
        requires there { entry < length chart.now.entries.items }
        ensures gathering { OnOk result (IsGathering chart.now self.new) }
        ensures places { OnOk result ((q : ℕ) → Holds self.new q ↔ (Holds self.old q ⊎ IsIn chart.now.entries.items entry q)) }
    {
        self.closures.join(entry, &mut self.bits)
    }

    /// Puts the places of the set in order.
    pub(crate) fn read_off(&mut self, chart: &Chart) -> Result<(), AllocError>
        requires { IsGathering chart.now self.old }
        ensures gathering { OnOk result (IsGathering chart.now self.new) }
        ensures sorted { OnOk result (IsAscending self.new.places.items) }
        ensures places { OnOk result ((q : ℕ) → Contains self.new.places.items q ↔ Holds self.old q) }
    {
        self.bits.read_off(&mut self.places)
    }

    /// The places that were put in order last.
    pub(crate) fn places(&self) -> &[usize]
        ensures { result.now ≡ self.now.places.items }
    {
        &self.places
    }
}
