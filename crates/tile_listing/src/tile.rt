//! The lines that show a tile.

ghost use Rattle.std.specs.Prelude.{◌≡◌, ◌++◌, OnOk};
ghost use Rattle.mvt_document.specs.Stands.{document_of};
ghost use Rattle.tile_listing.specs.Listing.{joined_lines, layer_line, layers_line, lines_of_tile, numbered};
ghost use Rattle.tile_lines.specs.Lines.{with_feed};
ghost use Rattle.mvt_messages.specs.Views.{layers};

use crate::layer::put_layer_line;
use mvt_document::Document;
use mvt_layers::{layer_count, layers};
use std::alloc::AllocError;
use tile_text::put_decimal;

/// Adds the lines that show the tile.
pub(crate) fn put_tile(text: &mut Vec<u8>, document: &Document) -> Result<(), AllocError>
    ensures { OnOk result (text.new.items
        ≡ text.old.items ++ joined_lines (lines_of_tile (document_of document.now))) }
{
    put_layers_line(text, document)?;
    put_layer_lines(text, document)
}

/// Adds the line that says how many layers the tile has.
fn put_layers_line(text: &mut Vec<u8>, document: &Document) -> Result<(), AllocError>
    ensures { OnOk result (text.new.items
        ≡ text.old.items ++ with_feed (layers_line (document_of document.now))) }
{
    text.extend_from_slice(b"layers ")?;
    put_decimal(text, layer_count(document) as u64)?;
    text.extend_from_slice(b"\n")
}

/// Adds a line for each layer.
fn put_layer_lines(text: &mut Vec<u8>, document: &Document) -> Result<(), AllocError>
    ensures { OnOk result (text.new.items
        ≡ text.old.items ++ joined_lines (numbered layer_line (layers (document_of document.now)))) }
{
    for found in layers(document) {
        put_layer_line(text, found.ordinal, found.view())?;
    }
    Ok(())
}
