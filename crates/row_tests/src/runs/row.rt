//! A row: read from its lines, run, and compared with what it should be.

ghost use Rattle.std.specs.Prelude.{◌≤◌};

use crate::runs::ways::{Ran, called, dripped, streamed};
use std::alloc::{AllocError, Global};
use std::io;
use test_fixtures::pieces::Pieces;
use tileshell::Options;

/// What is read, and what should result.
#[derive(Drop)]
pub struct Row<'a> {
    pub name: &'a str,
    depth: u32,
    is_strict: bool,
    tile: Vec<u8>,
    script: Vec<u8>,
    ends: &'a str,
    replies: Vec<u8>,
    gives: Option<Vec<u8>>,
}

impl<'a> Row<'a> {
    /// A row of no name.
    pub fn new(alloc: Global) -> Self {
        Row {
            name: "",
            depth: 100,
            is_strict: false,
            tile: Vec::new(alloc),
            script: Vec::new(alloc),
            ends: "Done",
            replies: Vec::new(alloc),
            gives: None,
        }
    }

    /// Takes what the line says. Returns whether it says something.
    pub fn read(
        &mut self,
        alloc: Global,
        pieces: &mut Pieces,
        line: &'a str,
    ) -> Result<bool, AllocError> {
        let (word, rest) = line.split_once(' ').unwrap_or((line, ""));
        match word {
            "piece" => return pieces.name(alloc, rest),
            "row" => self.name = rest,
            "strict" => self.is_strict = true,
            "ends" => self.ends = rest,
            "depth" => match rest.parse() {
                Ok(depth) => self.depth = depth,
                Err(_) => return Ok(false),
            },
            "gives" => {
                let mut tile = Vec::new(alloc);
                let is_well = pieces.put(alloc, rest, &mut tile)?;
                self.gives = Some(tile);
                return Ok(is_well);
            }
            _ => return self.read_bytes(alloc, pieces, word, rest),
        }
        Ok(true)
    }

    /// Takes what a line says whose word stands for bytes.
    fn read_bytes(
        &mut self,
        alloc: Global,
        pieces: &Pieces,
        word: &str,
        rest: &str,
    ) -> Result<bool, AllocError> {
        match word {
            "tile" => return pieces.put(alloc, rest, &mut self.tile),
            ">>" => return pieces.put(alloc, rest, &mut self.script),
            "<<" => return pieces.put(alloc, rest, &mut self.replies),
            ">" | ">|" => put_text(rest, word == ">", &mut self.script)?,
            "<" | "<|" => put_text(rest, word == "<", &mut self.replies)?,
            _ => return Ok(word == "#" || word.is_empty()),
        }
        Ok(true)
    }

    /// Runs the row, as a strict run too where no line is refused. Returns whether everything is as
    /// it should be, and prints where it is not.
    pub fn holds<R: Eprint + AllocGlobal>(&self, rt: &R) -> io::Result<bool> {
        let holds = self.holds_as(rt, self.options(self.is_strict))?;
        if self.is_strict || self.ends != "Done" {
            return Ok(holds);
        }
        Ok(self.holds_as(rt, self.options(true))? && holds)
    }

    /// Runs the row in each way.
    fn holds_as<R: Eprint + AllocGlobal>(&self, rt: &R, options: Options) -> io::Result<bool>
        requires some_depth { 1 ≤ options.depth }
        requires depth { options.depth ≤ 10000 }
    {
        let (alloc, tile, script) = (rt.alloc(), &self.tile, &self.script);
        let call = self.is_met(rt, "a call", &called(alloc, tile, script, options))?;
        let stream = self.is_met(rt, "streams", &streamed(alloc, tile, script, options))?;
        let drip = self.is_met(
            rt,
            "one byte a call",
            &dripped(alloc, tile, script, options),
        )?;
        Ok(call && stream && drip)
    }

    fn options(&self, strict: bool) -> Options
        ensures some_depth { 1 ≤ result.depth }
        ensures depth { result.depth ≤ 10000 }
    {
        let depth = self.depth.max(1).min(10000);
        Options { depth, strict }
    }

    /// The tile that should be written.
    fn tile_wanted(&self) -> Option<&[u8]> {
        match &self.gives {
            Some(tile) => Some(tile.as_slice()),
            None if self.ends == "Done" || self.ends == "SomeRefused" => Some(self.tile.as_slice()),
            None => None,
        }
    }

    /// Whether the run did what it should. If it did not, that is printed.
    fn is_met<R: Eprint + AllocGlobal>(&self, rt: &R, way: &str, ran: &Ran) -> io::Result<bool> {
        let ended = format!(in rt.alloc(); "{:?}", ran.outcome)?;
        let tile = ran.tile.as_deref();
        let is_met = ended.as_str() == self.ends
            && ran.replies.as_slice() == self.replies.as_slice()
            && tile == self.tile_wanted();
        if !is_met {
            print_run(rt, "is", ended.as_str(), &ran.replies, tile)?;
            print_run(
                rt,
                "should be",
                self.ends,
                &self.replies,
                self.tile_wanted(),
            )?;
            eprintln!(rt; "differs, as {way}: {}", self.name)?;
        }
        Ok(is_met)
    }
}

/// Puts the text after the bytes, with a line feed or without one.
fn put_text(text: &str, is_line: bool, to: &mut Vec<u8>) -> Result<(), AllocError> {
    to.extend_from_slice(text.as_bytes())?;
    if is_line {
        to.push(b'\n')?;
    }
    Ok(())
}

/// Prints how a run ends, its replies, and its tile in hexadecimal digits.
fn print_run<R: Eprint + AllocGlobal>(
    rt: &R,
    word: &str,
    ended: &str,
    replies: &[u8],
    tile: Option<&[u8]>,
) -> io::Result<()> {
    let replies = str::from_utf8(replies).unwrap_or("no UTF-8");
    eprintln!(rt; "{word} {ended}, with the replies\n{replies}")?;
    match tile {
        Some(bytes) => eprintln!(rt; "and the tile {}", hex::encode(rt.alloc(), bytes)?),
        None => eprintln!(rt; "and no tile"),
    }
}
