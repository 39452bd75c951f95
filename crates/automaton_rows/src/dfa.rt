//! An automaton as tables.
ghost use Rattle.std.specs.Prelude.{◌≡◌, ◌<◌, ◌≤◌, ℕ, drop, IfOk, length, slice_get, slice_index_or, Some};
ghost use Rattle.automaton_rows.specs.Automata.{IsWhole, target, state_after};
ghost use Rattle.names.specs.Hits.{no_hits};
ghost use Rattle.automaton_rows.specs.Rows.{AreRows, IsRowFrom, rows_of, target_in};

use crate::range::{TargetRange, head, rest_after};
use names::Record;
use std::alloc::{AllocError, Global};
use std::marker::Model;

/// The most states of an automaton, that of the empty set among them.
pub const MOST_SETS: usize = 16384;

/// The deterministic automaton of rules (apparmor.d(5), "Globbing"): for each state a row of ranges of bytes with one target each,
/// and a record of least hits. In state 0 nothing is live any more. Reading it allocates nothing.
#[derive(Drop)]
pub struct Dfa {
    // The ranges of all rows, one row after another. A row ends with the range whose last byte is 255.
    ranges: Vec<TargetRange>,
    // For each state the index of its row's first range.
    firsts: Vec<usize>,
    records: Vec<Record>,
    start: u32,
}

impl Model for Dfa {
    ghost use Rattle.automaton_rows.specs.Automata.{Automaton, IsWhole};
    ghost use Rattle.automaton_rows.specs.Rows.{AreRows, rows_of};

    ghost Value = { Automaton };

    ghost view = { λ d. record { rows = rows_of d.ranges.items d.firsts.items; records = d.records.items; start = d.start } };

    ghost invariant = { λ d. IsWhole (record { rows = rows_of d.ranges.items d.firsts.items; records = d.records.items; start = d.start })
        × AreRows d.ranges.items d.firsts.items };
}

impl Dfa {
    /// The automaton of no rules: state 0 alone.
    pub fn dead(alloc: Global) -> Result<Dfa, AllocError>
        ensures whole { IfOk result IsWhole }
        ensures alone { IfOk result (λ d. length d.rows ≡ 1) }
        ensures none { IfOk result (λ d. slice_get d.records 0 ≡ Some no_hits) }
    {
        let mut ranges = Vec::new(alloc);
        ranges.push(TargetRange {
            last: 255,
            target: 0,
        })?;
        let mut firsts = Vec::new(alloc);
        firsts.push(0)?;
        let mut records = Vec::new(alloc);
        records.push(Record::none())?;
        Ok(Dfa::of(ranges, firsts, records, 0))
    }

    /// The automaton of these tables: the ranges of all rows, the index of each row's first range, a record for each row, and the
    /// start.
    pub fn of(ranges: Vec<TargetRange>, firsts: Vec<usize>, records: Vec<Record>, start: u32) -> Dfa
        requires rows { AreRows ranges.items firsts.items }
        requires whole { IsWhole (record { rows = rows_of ranges.items firsts.items; records = records.items; start = start }) }
        ensures { result ≡ record { rows = rows_of ranges.items firsts.items; records = records.items; start = start } }
    {
        Dfa {
            ranges,
            firsts,
            records,
            start,
        }
    }

    /// The automaton with the same rows and these records, one for each state.
    pub fn with_records(&self, alloc: Global, records: Vec<Record>) -> Result<Dfa, AllocError>
        requires { length records.items ≡ length self.now.rows }
        ensures { IfOk result (λ d. d ≡ record self.now { records = records.items }) }
    {
        Ok(Dfa {
            ranges: Vec::from_slice(alloc, &self.ranges)?,
            firsts: Vec::from_slice(alloc, &self.firsts)?,
            records,
            start: self.start,
        })
    }

    /// The number of states, 1 to 16,384. They are numbered from 0 on.
    pub fn states(&self) -> u32
        ensures count { result ≡ length self.now.rows }
        ensures whole { IsWhole self.now }
    {
        self.firsts.len() as u32
    }

    /// The state before the first byte.
    pub fn start(&self) -> u32
        ensures start { result ≡ self.now.start }
        ensures there { result < length self.now.rows }
    {
        self.start
    }

    /// The row of a state, whose number is below the number of states, followed by other rows.
    pub fn row(&self, state: u32) -> &[TargetRange]
        requires { state < length self.now.rows }
        ensures whole { IsWhole self.now }
        ensures row { IsRowFrom 0 result.now }
        ensures targets { (b : ℕ) → b < 256 → target_in result.now b ≡ target self.now state b }
    {
        rest_from(&self.ranges, self.firsts[state as usize])
    }

    /// The state after one more byte, from a state whose number is below the number of states.
    pub fn target(&self, state: u32, byte: u8) -> u32
        requires { state < length self.now.rows }
        ensures target { result ≡ target self.now state byte }
        ensures there { result < length self.now.rows }
    {
        u32::from(target_of(self.row(state), byte))
    }

    /// The targets of all bytes from a state.
    pub fn targets(&self, state: u32) -> [u32; 256]
        requires { state < length self.now.rows }
        ensures targets { (b : ℕ) → b < 256 → slice_index_or result b 0 ≡ target self.now state b }
        ensures there { (b : ℕ) → b < 256 → slice_index_or result b 0 < length self.now.rows }
    {
        targets_of(self.row(state))
    }

    /// The least hits of what leads to a state, whose number is below the number of states.
    pub fn record_at(&self, state: u32) -> Record
        requires { state < length self.now.rows }
        ensures { slice_get self.now.records state ≡ Some result }
    {
        self.records[state as usize]
    }

    /// The least hits of a list of bytes, names among them: one step in the tables for each byte.
    pub fn record_after(&self, bytes: &[u8]) -> Record
        ensures { slice_get self.now.records (state_after self.now bytes.now) ≡ Some result }
    {
        let mut state = self.start;
        for byte in bytes {
            state = self.target(state, *byte);
        }
        self.record_at(state)
    }
}

// The ranges from an index on.
fn rest_from(ranges: &[TargetRange], first: usize) -> &[TargetRange]
    requires { first ≤ length ranges.now }
    ensures { result.now ≡ drop first ranges.now }
{
    &ranges[first..]
}

// The targets of all bytes in a row.
fn targets_of(row: &[TargetRange]) -> [u32; 256]
    requires { IsRowFrom 0 row.now }
    ensures { (b : ℕ) → b < 256 → slice_index_or result b 0 ≡ target_in row.now b }
{
    let mut targets = [0; 256];
    let mut rest = row;
    for byte in 0..256 {
        let range = head(rest, byte as u8);
        targets[byte] = u32::from(range.target);
        rest = rest_after(rest, byte as u8, byte as u8);
    }
    targets
}

// The target of a byte in a row.
fn target_of(row: &[TargetRange], byte: u8) -> u16
    requires { IsRowFrom 0 row.now }
    ensures { result ≡ target_in row.now byte }
{
    for range in row {
        if byte <= range.last {
            return range.target;
        }
    }
    0
}
