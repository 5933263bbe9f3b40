//! How texts, values and geometries are written.

use crate::calls::broken::{Answer, Broken};
use crate::calls::geometries::geometry_in;
use crate::calls::given::Given;
use mvt_value::value_of;
use std::alloc::{AllocError, Global};
use tile_text::{put_geometry, put_value, quote};

pub fn answer(alloc: Global, call: &str, given: Given<'_>) -> Answer {
    match call {
        "quote" => Ok(quote(alloc, given.bytes)?.into_vec()),
        "put_value" => Ok(value_put(Vec::new(alloc), given.bytes)?),
        "put_value_after" => {
            let line = Vec::from_slice(alloc, b"value 3 ")?;
            Ok(value_put(line, given.bytes)?)
        }
        "put_geometry" => geometry_put(alloc, given.text()?),
        _ => Err(Broken::NoCall),
    }
}

/// The line, and after it the value.
fn value_put(mut line: Vec<u8>, bytes: &[u8]) -> Result<Vec<u8>, AllocError> {
    put_value(&mut line, value_of(bytes))?;
    Ok(line)
}

fn geometry_put(alloc: Global, text: &str) -> Answer {
    let geometry = geometry_in(alloc, text)?;
    let mut line = Vec::new(alloc);
    put_geometry(&mut line, &geometry)?;
    Ok(line)
}
