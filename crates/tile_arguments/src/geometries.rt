//! Geometries, each by the name of its kind and its points.

ghost use Rattle.std.specs.Prelude.{◌≡◌, ◌≤◌, ◌==◌, ◌||◌, is_ok, IsOk, length, map, position};
ghost use Rattle.std.specs.List.{AllByRecursion, list_all};
ghost use Rattle.std.specs.Result.{IsErrOf};
ghost use Rattle.mvt_geometry.specs.Shapes.{IsPlaced};
ghost use Rattle.mvt_geometry.specs.Stands.{points_of};
ghost use Rattle.tile_lines.specs.Answers.{Gives};
ghost use Rattle.tile_lines.specs.WordStands.{word_of};
ghost use Rattle.tile_arguments.specs.Arguments.{point_in, point_of, part_of, is_bar, parts_of, shaped, kind_word, kind_of, geometry_of, DrawsPoints};

use crate::numbers::delta;
use mvt_document::Items;
use mvt_geometry::{Geometry, Kind, Part, Point};
use std::alloc::Global;
use tile_lines::{ParseError, Word};

/// The geometry that words say: the name of its kind, and its points.
#[tactic(auto, unfolding(crate::specs::Arguments::geometry_of))]
pub fn new_geometry(alloc: Global, words: &[Word<'_>]) -> Result<Geometry, ParseError>
    ensures answer { Gives (λ geometry. geometry) result (geometry_of (map word_of words.now)) }
    ensures no_memory { IsErrOf result ParseError.NoMemory → DrawsPoints (map word_of words.now) }
{
    let [Word::Bare(name), words @ ..] = words else {
        return Err(ParseError::BadGeometryText);
    };
    let kind = kind_of(name)?;
    let parts = parts(alloc, words)?;
    shaped(kind, parts)
}

/// The geometry of these parts, where they are as the kind requires.
#[tactic(auto, unfolding(crate::specs::Arguments::shaped))]
fn shaped(kind: Kind, parts: Items<Part>) -> Result<Geometry, ParseError>
    requires { AllByRecursion (AllByRecursion IsPlaced) (map points_of parts.items) }
    ensures { result ≡ shaped kind (map points_of parts.items) }
{
    match Geometry::new(kind, parts) {
        Ok(geometry) => Ok(geometry),
        Err(_) => Err(ParseError::BadGeometryText),
    }
}

/// The word of a kind.
pub fn kind_word(kind: Kind) -> &'static [u8]
    ensures { result.now ≡ kind_word kind }
{
    match kind {
        Kind::Dots => b"point",
        Kind::Lines => b"line",
        Kind::Areas => b"polygon",
    }
}

/// The kind with this word.
#[tactic(auto, unfolding(crate::specs::Arguments::kind_of))]
fn kind_of(name: &[u8]) -> Result<Kind, ParseError>
    ensures { result ≡ kind_of name.now }
{
    if name == kind_word(Kind::Dots) {
        Ok(Kind::Dots)
    } else if name == kind_word(Kind::Lines) {
        Ok(Kind::Lines)
    } else if name == kind_word(Kind::Areas) {
        Ok(Kind::Areas)
    } else {
        Err(ParseError::BadGeometryText)
    }
}

/// Parts, with a bar between them.
#[tactic(auto, using(crate::proofs::Judged::parts_said))]
fn parts(alloc: Global, words: &[Word<'_>]) -> Result<Items<Part>, ParseError>
    ensures answer { Gives (λ parts. map points_of parts.items) result (parts_of (map word_of words.now)) }
    ensures no_memory { IsErrOf result ParseError.NoMemory → IsOk (parts_of (map word_of words.now)) }
{
    if !are_points(words) {
        return Err(ParseError::BadGeometryText);
    }
    let mut parts = Vec::new(alloc);
    for group in words.split(|word| is_bar(*word)) {
        parts.push(part(alloc, group)?)?;
    }
    Ok(Items::from_vec(parts))
}

/// Whether each word is a point or a bar.
fn are_points(words: &[Word<'_>]) -> bool
    ensures { result ≡ list_all (λ word. is_bar (word_of word) || is_ok (point_of (word_of word))) words.now }
{
    words
        .iter()
        .all(|word| is_bar(*word) || point(*word).is_ok())
}

fn is_bar(word: Word<'_>) -> bool
    ensures { result ≡ is_bar (word_of word.entry) }
{
    match word {
        Word::Bare(bytes) => bytes == b"/".as_slice(),
        Word::Quoted(_) => false,
    }
}

/// A part with these points.
#[tactic(auto, unfolding(crate::specs::Arguments::part_of))]
fn part(alloc: Global, words: &[Word<'_>]) -> Result<Part, ParseError>
    ensures answer { Gives points_of result (part_of (map word_of words.now)) }
    ensures no_memory { IsErrOf result ParseError.NoMemory → 1 ≤ length words.now }
{
    let mut points = Vec::with_capacity(alloc, words.len())?;
    for word in words {
        points.push(point(*word)?)?;
    }
    Ok(Part {
        points: Items::from_vec(points),
    })
}

/// A point: x and y, with a comma between them.
#[tactic(auto, unfolding(crate::specs::Arguments::point_of))]
fn point(word: Word<'_>) -> Result<Point, ParseError>
    ensures { result ≡ point_of (word_of word.entry) }
{
    match word {
        Word::Bare(bytes) => point_in(bytes).ok_or(ParseError::BadGeometryText),
        Word::Quoted(_) => Err(ParseError::BadGeometryText),
    }
}

/// The point whose coordinates are on either side of the first comma.
fn point_in(bytes: &[u8]) -> Option<Point>
    ensures { result ≡ point_in bytes.now }
{
    let comma = comma_in(bytes)?;
    let (x, _) = bytes.split_at(comma);
    let (_, y) = bytes.split_at(comma + 1);
    Some(Point {
        x: delta(x)?,
        y: delta(y)?,
    })
}

fn comma_in(bytes: &[u8]) -> Option<usize>
    ensures { result ≡ position (λ b. b == 44) bytes.now }
{
    bytes.iter().position(|byte| *byte == b',')
}
