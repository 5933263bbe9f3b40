//! The changes of several commands as one change.

ghost use Rattle.std.specs.Prelude.{◌≡◌, ◌++◌, IfOk};
ghost use Rattle.mvt_change.specs.ChangeStands.{change_of};

use crate::edits::Edit;
use mvt_edit::{Change, Command, Refusal, flip, prepare};
use mvt_wire::{Document, ReadError, read_document};
use std::alloc::{AllocError, Global};
use std::marker::Model;

/// A document as it was read, a change that fits it, and the document that the change makes of it.
#[derive(Drop)]
pub struct Series {
    document: Document,
    change: Change,
    made: Document,
}

impl Model for Series {
    ghost use Rattle.std.specs.Coded.{codes};
    ghost use Rattle.mvt_wire.specs.Stands.{document_of};
    ghost use Rattle.mvt_change.specs.ChangeStands.{change_of};
    ghost use Rattle.mvt_change.specs.Codes.{coded_item};
    ghost use Rattle.test_fixtures.specs.Edits.{Series as PlainSeries, IsSeries};

    ghost Value = { PlainSeries };

    ghost coded = { Prim.hlevel (codes, coded_item) };

    ghost view = { λ s. record { edit = record { document = document_of s.document; change = change_of s.change }; made = document_of s.made } };

    ghost invariant = { λ s. IsSeries (record { edit = record { document = document_of s.document; change = change_of s.change }; made = document_of s.made }) };
}

impl Series {
    /// The document of a file, and a change of no steps.
    pub fn read(alloc: Global, file: &[u8]) -> Result<Series, ReadError> {
        let steps = Vec::new(alloc);
        Ok(Series {
            document: read_document(alloc, file)?,
            change: Change::new(steps),
            made: read_document(alloc, file)?,
        })
    }

    /// The change goes on with what the command does.
    pub fn then(self, alloc: Global, command: Command) -> Result<Series, Refusal> {
        self.on(alloc, &command)
    }

    fn on(self, alloc: Global, command: &Command) -> Result<Series, Refusal> {
        let Series {
            document,
            change,
            mut made,
        } = self;
        let next = prepare(alloc, &made, command)?;
        let mut carried = prepare(alloc, &made, command)?;
        flip(alloc, &mut made, &mut carried)?;
        Ok(Series {
            document,
            change: joined(change, next)?,
            made,
        })
    }

    /// The document and the change.
    pub fn into_edit(self) -> Edit {
        let Series {
            document,
            change,
            ..
        } = self;
        Edit::of(document, change)
    }
}

/// One change, and after it the other.
fn joined(mut first: Change, mut second: Change) -> Result<Change, AllocError>
    ensures { IfOk result (λ change. change_of change ≡ change_of first ++ change_of second) }
{
    first.in_order();
    second.in_order();
    let mut steps = first.steps.into_vec();
    let mut more = second.steps.into_vec();
    steps.append(&mut more)?;
    Ok(Change::new(steps))
}
