//! The tables of single calls.

mod answers;
mod arguments;
mod broken;
mod changes;
mod errors;
mod geometries;
mod given;
mod limits;
mod numbers;
mod row;
mod scripts;
mod sessions;
mod texts;
mod values;
mod views;
mod wire;

use crate::calls::row::{Line, Row};
use crate::counts::Counts;
use std::io;
use test_fixtures::pieces::Pieces;

/// Tries the rows of a table.
pub fn try_calls<R: Eprint + AllocGlobal>(
    rt: &R,
    pieces: &mut Pieces,
    text: &str,
    counts: &mut Counts,
) -> io::Result<()> {
    let mut row = Row::new(rt.alloc());
    for line in text.lines() {
        let read = row.read(rt.alloc(), pieces, line)?;
        if let Line::Answers(_) = read {
            counts.add_row();
        }
        if !is_well(rt, &row, line, &read)? {
            counts.add_fault();
        }
    }
    Ok(())
}

/// Whether the line is one of a table, and the row that it ends holds. If not, that is printed.
fn is_well<R: Eprint + AllocGlobal>(
    rt: &R,
    row: &Row<'_>,
    line: &str,
    read: &Line,
) -> io::Result<bool> {
    match read {
        Line::Taken => Ok(true),
        Line::Unknown => {
            eprintln!(rt; "no line of a table: {line}")?;
            Ok(false)
        }
        Line::Answers(wanted) => row.holds(rt, wanted),
    }
}
