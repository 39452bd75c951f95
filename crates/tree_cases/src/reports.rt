//! The outcomes of a script's lines.
use crate::creation::make;
use crate::lines::Line;
use crate::twins::{Differ, Rooms, Twins};
use directory_tree::{Change, Kind};
use names::{Errno, Path};
use path_lookup::{NAME_ROOM, WalkFault};
use row_rule::Cell;
use std::io;
use std::io::Write;

/// Writes the outcome of a line that asks for something of a tree.
pub(crate) fn tell<W: Write>(tree: &mut Twins, line: &Line<'_>, output: &mut W) -> io::Result<()> {
    match line {
        Line::Make(change) => tell_change(tree, change, output),
        Line::Plan(change) => tell_plan(tree, change, output),
        Line::Name(path) => tell_name(tree, path, output),
        Line::Node(path) => tell_node(tree, path, output),
        Line::Text(path) => tell_text(tree, path, output),
        Line::Comment | Line::Room(_) | Line::Draw { .. } => Ok(()),
    }
}

fn tell_change<W: Write>(tree: &mut Twins, change: &Change<'_>, output: &mut W) -> io::Result<()> {
    match make(tree, change) {
        Ok(Ok(version)) => write!(output, "ok {version}"),
        Ok(Err(errno)) => write!(output, "{errno}"),
        Err(Differ) => differ(output),
    }
}

fn differ<W: Write>(output: &mut W) -> io::Result<()> {
    write!(output, "the trees differ")
}

fn tell_plan<W: Write>(tree: &mut Twins, change: &Change<'_>, output: &mut W) -> io::Result<()> {
    match tree.plan(change) {
        Ok(cells) => tell_cells(&cells, output),
        Err(errno) => write!(output, "{errno}"),
    }
}

fn tell_cells<W: Write>(cells: &[Cell], output: &mut W) -> io::Result<()> {
    write!(output, "cells")?;
    for Cell { place, word } in cells {
        write!(output, " {place}={word:#x}")?;
    }
    Ok(())
}

fn tell_name<W: Write>(tree: &mut Twins, path: &Path<'_>, output: &mut W) -> io::Result<()> {
    let mut room = [0; NAME_ROOM];
    match tree.name_place(path, &mut room) {
        Ok(Ok(length)) => output.write_all(&room[..length]),
        Ok(Err(fault)) => tell_fault(fault, output),
        Err(Differ) => differ(output),
    }
}

fn tell_node<W: Write>(tree: &mut Twins, path: &Path<'_>, output: &mut W) -> io::Result<()> {
    match tree.tell(path, &mut Rooms::new()) {
        Ok(Ok(told)) => write!(output, "{}", told.node),
        Ok(Err(fault)) => tell_fault(fault, output),
        Err(Differ) => differ(output),
    }
}

fn tell_text<W: Write>(tree: &mut Twins, path: &Path<'_>, output: &mut W) -> io::Result<()> {
    let mut rooms = Rooms::new();
    match tree.tell(path, &mut rooms) {
        Ok(Ok(told)) if told.kind == Kind::Link => output.write_all(&rooms.text[..told.text]),
        Ok(Ok(_)) => write!(output, "no link"),
        Ok(Err(fault)) => tell_fault(fault, output),
        Err(Differ) => differ(output),
    }
}

fn tell_fault<W: Write>(fault: WalkFault, output: &mut W) -> io::Result<()> {
    match fault {
        WalkFault::Refused(errno) => write!(output, "{errno}"),
        WalkFault::Torn => write!(output, "torn"),
    }
}
