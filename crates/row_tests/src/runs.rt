//! The tables of whole runs.

mod row;
mod ways;

use crate::counts::Counts;
use crate::runs::row::Row;
use std::io;
use test_fixtures::pieces::Pieces;

/// Tries the rows of a table.
pub fn try_runs<R: Eprint + AllocGlobal>(
    rt: &R,
    pieces: &mut Pieces,
    text: &str,
    counts: &mut Counts,
) -> io::Result<()> {
    for block in text.split("\n\n") {
        try_block(rt, pieces, block, counts)?;
    }
    Ok(())
}

/// Takes what the lines of a block name, and runs the row that they make.
fn try_block<R: Eprint + AllocGlobal>(
    rt: &R,
    pieces: &mut Pieces,
    block: &str,
    counts: &mut Counts,
) -> io::Result<()> {
    let mut row = Row::new(rt.alloc());
    for line in block.lines() {
        if !row.read(rt.alloc(), pieces, line)? {
            eprintln!(rt; "no line of a table: {line}")?;
            counts.add_fault();
        }
    }
    if !row.name.is_empty() {
        counts.add_row();
        if !row.holds(rt)? {
            counts.add_fault();
        }
    }
    Ok(())
}
