//! The tables of an automaton.
ghost use Rattle.std.specs.Prelude.{◌≡◌, ℕ, ◌+◌, ◌*◌, ◌^◌, ◌<◌, ◌≤◌, ◌++◌, ◌∷◌, [], Contains, IfOk, OnOk, false, length};
ghost use Rattle.table_image.specs.PackedTables.{IsTableOf};
ghost use Rattle.table_image.specs.inner.PackSteps.{HasCells, IsPacked, IsPlaced, IsRecordNumber};
ghost use Rattle.table_image.specs.inner.FirstBases.{AreStarts};
ghost use Rattle.table_image.specs.inner.TakenCells.{is_taken};
ghost use Rattle.tables.specs.Tables.{table_value};

use crate::cells::write_cells;
use crate::choice::{choose, others_of};
use crate::starts::Starts;
use crate::taken::Taken;
use automaton_rows::Dfa;
use indexmap::IndexSet;
use names::{NoMemory, Record, equal_records_are_one};
use std::alloc::{AllocError, Global};
use tables::{FEWEST_STATES, ROW_LENGTH, RawTable};

// The owner of a cell that no state owns.
const FREE: u32 = u32::MAX;

/// The states that have been packed.
#[derive(Drop)]
struct Packing {
    table: RawTable,
    taken: Taken,
    starts: Starts,
    // The numbers of the records.
    numbers: IndexSet<Record>,
    // The bytes that need a cell in the row that is being packed.
    bytes: Vec<u8>,
    // For each of them its target.
    targets: [u32; 256],
    // For each state 0, but while the default of a row is chosen: then how many bytes of the row lead there.
    counts: Vec<u32>,
}

/// The tables of an automaton. A state's default is the target that the most bytes have, the least state among equals. The other
/// bytes have cells, at the least base at which none of them is taken; a state without cells has base 0. There are as many cells
/// as the greatest base and 256. Equal records are stored once, in the order of their least states. An automaton of state 0 alone
/// has a second state, which is as dead. No state has a depth, so version 1 of images can hold the tables if in each record append
/// has the hits of write.
pub fn pack(alloc: Global, dfa: &Dfa) -> Result<RawTable, NoMemory>
    ensures table { IfOk result (λ table. IsTableOf dfa.now (table_value table)) }
    ensures flat { IfOk result (λ table. table.depth_bound ≡ 0) }
{
    match pack_states(alloc, dfa, 0) {
        Ok(table) => Ok(table),
        Err(AllocError) => Err(NoMemory),
    }
}

/// The tables of an automaton, with chains of defaults of a depth up to the greatest. A state's default is what leaves the fewest
/// cells: the commonest target, as in `pack`, or one of the 64 states numbered just before it whose depth is below the greatest,
/// where a byte without a cell is looked up again. Then its depth is one more than that of its default. Depth 0 goes first among
/// equals, and then the least state. The bound of depths is the greatest depth that occurs. All else is as in `pack`, and with a
/// greatest depth of 0 the tables are those of `pack`.
pub fn pack_chained(alloc: Global, dfa: &Dfa, most_depth: u16) -> Result<RawTable, NoMemory>
    ensures table { IfOk result (λ table. IsTableOf dfa.now (table_value table)) }
    ensures bound { IfOk result (λ table. table.depth_bound ≤ most_depth) }
{
    match pack_states(alloc, dfa, most_depth) {
        Ok(table) => Ok(table),
        Err(AllocError) => Err(NoMemory),
    }
}

fn pack_states(alloc: Global, dfa: &Dfa, most_depth: u16) -> Result<RawTable, AllocError>
    ensures table { IfOk result (λ table. IsTableOf dfa.now (table_value table)) }
    ensures bound { IfOk result (λ table. table.depth_bound ≤ most_depth) }
{
    let states = dfa.states().max(FEWEST_STATES);
    let mut counts = Vec::new(alloc);
    counts.resize(dfa.states() as usize, 0)?;
    let mut packing = Packing {
        table: RawTable {
            default: Vec::new(alloc),
            base: Vec::new(alloc),
            accept: Vec::new(alloc),
            next: Vec::new(alloc),
            check: Vec::new(alloc),
            records: Vec::new(alloc),
            depth_bound: 0,
            depth: Vec::new(alloc),
        },
        taken: Taken::new(alloc),
        starts: Starts::new(alloc)?,
        numbers: IndexSet::new(alloc),
        bytes: Vec::new(alloc),
        targets: [0; 256],
        counts,
    };
    for state in 0..states {
        push_state(&mut packing, dfa, state, most_depth)?;
    }
    Ok(packing.table)
}

// Adds a state, with its record and its row.
fn push_state(
    packing: &mut Packing,
    dfa: &Dfa,
    state: u32,
    most_depth: u16,
) -> Result<(), AllocError>
    requires few { state < 16384 }
    requires same { packing.old.table.records.items ≡ packing.old.numbers.keys }
    requires counts { length packing.old.counts.items ≡ length dfa.now.rows }
    requires bound { packing.old.table.depth_bound ≤ most_depth }
    requires packed { IsPacked dfa.now (table_value packing.old.table) packing.old.taken state }
    requires starts { AreStarts packing.old.taken packing.old.starts }
    ensures starts { OnOk result (AreStarts packing.new.taken packing.new.starts) }
    ensures same { OnOk result (packing.new.table.records.items ≡ packing.new.numbers.keys) }
    ensures bound { OnOk result (packing.new.table.depth_bound ≤ most_depth) }
    ensures counts { OnOk result (length packing.new.counts.items ≡ length dfa.now.rows) }
    ensures packed { OnOk result (IsPacked dfa.now (table_value packing.new.table) packing.new.taken (state + 1)) }
{
    let source = state.min(dfa.states() - 1);
    let number = number_of(
        &mut packing.table.records,
        &mut packing.numbers,
        dfa.record_at(source),
    )?;
    let choice = choose(
        dfa,
        source,
        &mut packing.counts,
        &packing.table.depth,
        most_depth,
    );
    others_of(
        &mut packing.bytes,
        &mut packing.targets,
        dfa,
        source,
        choice,
    )?;
    let base = place_row(
        &mut packing.table.next,
        &mut packing.table.check,
        &mut packing.taken,
        &mut packing.starts,
        &packing.targets,
        &packing.bytes,
        state,
    )?;
    push_number(&mut packing.table.default, u32::from(choice.default))?;
    push_number(&mut packing.table.base, base as u32)?;
    push_number(&mut packing.table.accept, number)?;
    push_number(&mut packing.table.depth, u32::from(choice.depth))?;
    packing.table.depth_bound = packing.table.depth_bound.max(choice.depth);
    Ok(())
}

// Places the row of a state, and returns its base.
fn place_row(
    next: &mut Vec<u32>,
    check: &mut Vec<u32>,
    taken: &mut Taken,
    starts: &mut Starts,
    targets: &[u32; 256],
    bytes: &[u8],
    state: u32,
) -> Result<usize, AllocError>
    requires few { state < 16384 }
    requires below { (b : ℕ) → Contains bytes.now b → b < 256 }
    requires long { length check.old.items ≡ length next.old.items }
    requires words { length taken.old.words.items < 2 ^ 26 }
    requires free { (c : ℕ) → 256 * state ≤ c → is_taken taken.old c ≡ false }
    requires starts { AreStarts taken.old starts.old }
    ensures starts { OnOk result (AreStarts taken.new starts.new) }
    ensures placed { IfOk result (IsPlaced next.old.items check.old.items taken.old next.new.items check.new.items taken.new targets.now
        bytes.now state) }
{
    let limit = ROW_LENGTH as usize * state as usize;
    let base = taken.place(bytes, limit, starts.start_for(bytes));
    make_cells(next, check, taken, base + ROW_LENGTH as usize)?;
    write_cells(next, check, taken, targets, bytes, base, state);
    starts.remember(bytes, base)?;
    Ok(base)
}

// Makes the lists of cells at least this long. The new cells are free.
fn make_cells(
    next: &mut Vec<u32>,
    check: &mut Vec<u32>,
    taken: &mut Taken,
    cells: usize,
) -> Result<(), AllocError>
    requires few { cells < 2 ^ 32 }
    requires long { length check.old.items ≡ length next.old.items }
    ensures { OnOk result (HasCells next.old.items check.old.items taken.old next.new.items check.new.items taken.new cells) }
{
    taken.make_room(cells)?;
    if cells <= next.len() {
        return Ok(());
    }
    next.resize(cells, 0)?;
    check.resize(cells, FREE)?;
    Ok(())
}

// Adds a number.
fn push_number(list: &mut Vec<u32>, number: u32) -> Result<(), AllocError>
    ensures { OnOk result (list.new.items ≡ list.old.items ++ number ∷ []) }
{
    list.push(number)?;
    Ok(())
}

// The number of a record: the next one, if it is new.
fn number_of(
    records: &mut Vec<Record>,
    numbers: &mut IndexSet<Record>,
    hits: Record,
) -> Result<u32, AllocError>
    requires same { records.old.items ≡ numbers.old.keys }
    requires few { length records.old.items < 65536 }
    ensures same { OnOk result (records.new.items ≡ numbers.new.keys) }
    ensures number { IfOk result (IsRecordNumber records.old.items records.new.items hits) }
{
    equal_records_are_one();
    if let Some(number) = numbers.get_index_of(&hits) {
        return Ok(number as u32);
    }
    let number = records.len() as u32;
    numbers.insert(hits)?;
    records.push(hits)?;
    Ok(number)
}
