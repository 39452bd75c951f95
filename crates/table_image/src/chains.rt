//! Tables with chains of defaults have the records of their automata.
ghost use Rattle.automaton_rows.specs.Automata.{Automaton, IsWhole};
ghost use Rattle.table_image.specs.Chains.{IsChained};
ghost use Rattle.table_image.specs.PackedTables.{IsTableOf};
ghost use Rattle.tables.specs.Tables.{Table};

/// Tables in which each state has the targets and the record of one of an automaton, in its cells or over chains of defaults, are
/// tables of the automaton, wherever the cells are and whichever chains are chosen. It does nothing.
pub fn chained_tables_tell_the_same()
    ensures { (a : Automaton) (t : Table) → IsWhole a → IsChained a t → IsTableOf a t }
{}
