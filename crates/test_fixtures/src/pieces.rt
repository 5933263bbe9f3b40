//! Bytes by name, and bytes that are made of them. A piece is pairs of hexadecimal digits, or a
//! name from before; `3*PIECE` is three times the piece.

use std::alloc::{AllocError, Global};

/// A name, and the bytes that it stands for.
#[derive(Drop)]
struct Piece {
    name: String,
    bytes: Vec<u8>,
}

/// The pieces that are named.
#[derive(Drop)]
pub struct Pieces {
    pieces: Vec<Piece>,
}

impl Pieces {
    pub fn new(alloc: Global) -> Self {
        Pieces {
            pieces: Vec::new(alloc),
        }
    }

    /// Names the bytes, where the text is a name, `=` and pieces. Returns whether it is.
    pub fn name(&mut self, alloc: Global, text: &str) -> Result<bool, AllocError> {
        let Some((name, words)) = text.split_once(" = ") else {
            return Ok(false);
        };
        let mut bytes = Vec::new(alloc);
        let is_well = self.put(alloc, words, &mut bytes)?;
        let name = name.to_owned(alloc)?;
        self.pieces.push(Piece { name, bytes })?;
        Ok(is_well)
    }

    /// Puts the bytes of the pieces after those that are there. Returns whether each is one.
    pub fn put(&self, alloc: Global, words: &str, to: &mut Vec<u8>) -> Result<bool, AllocError> {
        for word in words.split_whitespace() {
            let (count, name) = word.split_once('*').unwrap_or(("1", word));
            let Ok(count) = count.parse::<u32>() else {
                return Ok(false);
            };
            let Some(bytes) = self.bytes_of(alloc, name)? else {
                return Ok(false);
            };
            for _ in 0..count {
                to.extend_from_slice(&bytes)?;
            }
        }
        Ok(true)
    }

    /// The bytes of a name, or of hexadecimal digits.
    fn bytes_of(&self, alloc: Global, name: &str) -> Result<Option<Vec<u8>>, AllocError> {
        for piece in &self.pieces {
            if piece.name.as_str() == name {
                return Ok(Some(piece.bytes.clone()?));
            }
        }
        Ok(hex::decode(alloc, name).ok())
    }
}
