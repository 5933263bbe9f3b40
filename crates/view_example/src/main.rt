//! Prints the name of each layer of a tile, and how many features it has: how a program looks at a
//! tile by `mvt_wire` and `mvt_view` alone.
//!
//! Its arguments are the files with tiles.
#![tactic(auto)]

use mvt_view::{LayerView, layers};
use mvt_wire::{Document, read_document};
use std::process::ExitCode;
use std::rt::{Env, Files};
use std::{env, fs, io};

fn main(rt: HostRuntime) -> io::Result<ExitCode> {
    for file in env::args(&rt)?.skip(1) {
        let tile = fs::read(&rt, file.as_str())?;
        match read_document(rt.alloc(), tile.as_slice()) {
            Ok(document) => show(&rt, &document)?,
            Err(error) => {
                eprintln!(rt; "view_example: {file}: {error}")?;
                return Ok(ExitCode::FAILURE);
            }
        }
    }
    Ok(ExitCode::SUCCESS)
}

/// Prints a line for each layer.
fn show(rt: &impl Print, document: &Document) -> io::Result<()> {
    for found in layers(document) {
        let layer = found.view();
        println!(rt; "{}: {}", name_of(layer), layer.feature_count())?;
    }
    Ok(())
}

/// The name of a layer, or what is wrong with it.
fn name_of(layer: LayerView<'_>) -> &str {
    match layer.name() {
        Some(name) => str::from_utf8(name).unwrap_or("(a name that is not UTF-8)"),
        None => "(no name)",
    }
}
