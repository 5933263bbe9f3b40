//! Geometries as points, as numbers and as bytes.
//!
//! A geometry is shown as its kind and its parts, with ` / ` between them:
//! `Lines 2,2 2,10 / 1,1 3,5`. `Dots none` has no part, and `Dots` alone one part of no points.

use crate::calls::broken::{Answer, Broken};
use crate::calls::given::{Given, number_in, shown};
use mvt_geometry::{Geometry, Kind, Part, Point, encode_geometry, geometry_of};
use mvt_wire::Items;
use std::alloc::{AllocError, Global};

pub fn answer(alloc: Global, call: &str, given: Given<'_>) -> Answer {
    match call {
        "new" => made(alloc, given.text()?),
        "encode_geometry" => encoded(alloc, given.text()?),
        "geometry_of" => read(alloc, given),
        _ => Err(Broken::NoCall),
    }
}

/// The geometry, or how many parts come back.
fn made(alloc: Global, text: &str) -> Answer {
    let (kind, parts) = kind_and_parts(alloc, text)?;
    match Geometry::new(kind, parts) {
        Ok(geometry) => Ok(geometry_shown(alloc, &geometry)?),
        Err(parts) => Ok(format!(in alloc; "refused, parts {}", parts.len())?.into_bytes()),
    }
}

fn encoded(alloc: Global, text: &str) -> Answer {
    match encode_geometry(alloc, &geometry_in(alloc, text)?) {
        Ok(bytes) => Ok(bytes.into_vec()),
        Err(error) => shown(alloc, error),
    }
}

/// What a kind and numbers are read as.
fn read(alloc: Global, given: Given<'_>) -> Answer {
    let (kind, rest) = given.number_and_rest()?;
    match geometry_of(alloc, kind, &numbers_in(alloc, rest)?) {
        Ok(geometry) => Ok(geometry_shown(alloc, &geometry)?),
        Err(error) => shown(alloc, error),
    }
}

fn numbers_in(alloc: Global, text: &str) -> Result<Vec<u32>, Broken> {
    let mut numbers = Vec::new(alloc);
    for word in text.split_whitespace() {
        let number = number_in(word)?;
        numbers.push(u32::try_from(number).map_err(|_| Broken::BadGiven)?)?;
    }
    Ok(numbers)
}

/// The geometry that the text says.
pub fn geometry_in(alloc: Global, text: &str) -> Result<Geometry, Broken> {
    let (kind, parts) = kind_and_parts(alloc, text)?;
    Geometry::new(kind, parts).map_err(|_| Broken::BadGiven)
}

fn kind_and_parts(alloc: Global, text: &str) -> Result<(Kind, Items<Part>), Broken> {
    let (word, rest) = text.split_once(' ').unwrap_or((text, ""));
    let kind = match word {
        "Dots" => Kind::Dots,
        "Lines" => Kind::Lines,
        "Areas" => Kind::Areas,
        _ => return Err(Broken::BadGiven),
    };
    Ok((kind, parts_in(alloc, rest)?))
}

fn parts_in(alloc: Global, text: &str) -> Result<Items<Part>, Broken> {
    let mut parts = Vec::new(alloc);
    if text != "none" {
        for part in text.split(" / ") {
            let points = points_in(alloc, part)?;
            parts.push(Part { points })?;
        }
    }
    Ok(Items::from_vec(parts))
}

fn points_in(alloc: Global, text: &str) -> Result<Items<Point>, Broken> {
    let mut points = Vec::new(alloc);
    for word in text.split_whitespace() {
        let (x, y) = word.split_once(',').ok_or(Broken::BadGiven)?;
        points.push(Point {
            x: coordinate_in(x)?,
            y: coordinate_in(y)?,
        })?;
    }
    Ok(Items::from_vec(points))
}

fn coordinate_in(text: &str) -> Result<i64, Broken> {
    text.parse().map_err(|_| Broken::BadGiven)
}

/// The kind and the parts of a geometry.
pub fn geometry_shown(alloc: Global, geometry: &Geometry) -> Result<Vec<u8>, AllocError> {
    let mut line = format!(in alloc; "{:?}", geometry.kind())?.into_bytes();
    let mut is_first = true;
    for part in geometry.parts() {
        if !is_first {
            line.extend_from_slice(b" /")?;
        }
        is_first = false;
        put_points(alloc, &mut line, part.points.as_slice())?;
    }
    Ok(line)
}

fn put_points(alloc: Global, line: &mut Vec<u8>, points: &[Point]) -> Result<(), AllocError> {
    for Point { x, y } in points {
        line.extend_from_slice(format!(in alloc; " {x},{y}")?.as_bytes())?;
    }
    Ok(())
}
