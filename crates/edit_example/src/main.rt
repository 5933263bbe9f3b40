//! Renames a layer of a tile: how a program calls `tileshell::edit`.
//!
//! Its arguments are TILE OUT OLD NEW. It prints the replies to its script, and writes the edited
//! tile to OUT if no line was refused.
#![tactic(auto)]

use std::alloc::{AllocError, Global};
use std::io::Write;
use std::process::ExitCode;
use std::rt::{Env, Files};
use std::{env, fs, io};
use tileshell::{Edited, Options, edit, quote};

fn main(rt: HostRuntime) -> io::Result<ExitCode> {
    let words: Vec<String> = env::args(&rt)?.skip(1).collect(rt.alloc())?;
    let [tile, out, old, new] = words.as_slice() else {
        eprintln!(rt; "usage: edit_example TILE OUT OLD NEW")?;
        return Ok(ExitCode::FAILURE);
    };
    let tile = fs::read(&rt, tile.as_str())?;
    let script = renaming(rt.alloc(), old.as_str(), new.as_str())?;
    let options = Options {
        depth: 100,
        strict: true,
    };
    let Edited {
        outcome,
        replies,
        tile,
    } = edit(rt.alloc(), tile.as_slice(), script.as_slice(), options);
    io::writer(&rt).write_all(replies.as_slice())?;
    let Some(tile) = tile else {
        eprintln!(rt; "edit_example: no tile was written: {outcome}")?;
        return Ok(ExitCode::FAILURE);
    };
    fs::write(&rt, out.as_str(), tile)?;
    Ok(ExitCode::SUCCESS)
}

/// The script: the layer gets the other name, and then the layers are listed.
fn renaming(alloc: Global, old: &str, new: &str) -> Result<Vec<u8>, AllocError> {
    let mut script = Vec::new(alloc);
    script.extend_from_slice(b"rename-layer ")?;
    script.extend_from_slice(quote(alloc, old.as_bytes())?.as_slice())?;
    script.push(b' ')?;
    script.extend_from_slice(quote(alloc, new.as_bytes())?.as_slice())?;
    script.extend_from_slice(b"\nlist\n")?;
    Ok(script)
}
