//! A script cut into its lines, byte by byte.

ghost use Rattle.std.specs.Prelude.{◌≡◌, option_map, IfOk};
ghost use Rattle.tile_lines.specs.Cutting.{nothing_held, pushed, complete_line, rest_of};
ghost use Rattle.tile_lines.specs.CutStands.{cut_seen};

use crate::LINE_LIMIT;
use std::alloc::{AllocError, Global};
use std::marker::Model;

/// A line that was cut from a script, without its line feed.
#[derive(Clone, Copy)]
pub enum Cut<'a> {
    Line(&'a [u8]),
    /// The line has more bytes than a line may have.
    TooLong,
}

/// Takes a script byte by byte, and holds the line that its last byte belongs to.
#[derive(Drop)]
pub struct LineCutter {
    line: Vec<u8>,
    is_too_long: bool,
    is_complete: bool,
}

impl Model for LineCutter {
    ghost use Rattle.std.specs.Prelude.{◌≤◌, length, vec_capacity, if◌then◌else◌};
    ghost use Rattle.tile_lines.specs.declared.TheConstants.{LINE_LIMIT};
    ghost use Rattle.tile_lines.specs.Cutting.{Holding, Whole, TooLong};

    ghost Value = { Holding };

    ghost view = { λ c. record { cut = (if c.is_too_long then TooLong else Whole c.line.items); is_complete = c.is_complete } };

    ghost invariant = { λ c. (length c.line.items ≤ LINE_LIMIT) × (LINE_LIMIT ≤ vec_capacity c.line) };
}

impl LineCutter {
    /// A cutter that holds no byte. Memory is asked for only here.
    pub fn new(alloc: Global) -> Result<LineCutter, AllocError>
        ensures { IfOk result (λ cutter. cutter ≡ nothing_held) }
    {
        let line = Vec::with_capacity(alloc, LINE_LIMIT)?;
        Ok(LineCutter {
            line,
            is_too_long: false,
            is_complete: false,
        })
    }

    /// Takes the next byte of the script. It belongs to a new line if the one before is complete. A
    /// line feed completes its line, and every other byte is added to it.
    #[tactic(auto, unfolding(crate::specs::Cutting::pushed))]
    pub fn push(&mut self, byte: u8)
        ensures { self.new ≡ pushed self.old byte }
    {
        if self.is_complete {
            self.line.clear();
            self.is_too_long = false;
            self.is_complete = false;
        }
        if byte == b'\n' {
            self.is_complete = true;
        } else if self.line.len() < LINE_LIMIT {
            self.line.push_reserved(byte);
        } else {
            self.is_too_long = true;
        }
    }

    /// The line held, where it is complete.
    pub fn line(&self) -> Option<Cut<'_>>
        ensures { option_map cut_seen result ≡ complete_line self.now }
    {
        if self.is_complete {
            Some(self.cut())
        } else {
            None
        }
    }

    /// The bytes held of a line that is not complete, if there are any.
    pub fn rest(&self) -> Option<Cut<'_>>
        ensures { option_map cut_seen result ≡ rest_of self.now }
    {
        if self.is_complete {
            return None;
        }
        match self.cut() {
            Cut::Line([]) => None,
            cut => Some(cut),
        }
    }

    fn cut(&self) -> Cut<'_>
        ensures { cut_seen result ≡ self.now.cut }
    {
        if self.is_too_long {
            Cut::TooLong
        } else {
            Cut::Line(&self.line)
        }
    }
}
