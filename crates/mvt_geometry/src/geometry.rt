//! A geometry, whose type ensures that it is one.

use crate::shapes::{Kind, Part};
use crate::valid::is_geometry;
use mvt_document::Items;
use std::marker::Model;

/// A geometry: as many parts as its kind requires, each with as many points as the kind requires, and
/// coordinates from -2^62 to 2^62. Contracts see its points.
#[derive(Debug, Drop)]
pub struct Geometry {
    kind: Kind,
    parts: Items<Part>,
}

impl Model for Geometry {
    ghost use Rattle.mvt_geometry.specs.Shapes.{Geometry as PlainGeometry, IsGeometry};
    ghost use Rattle.mvt_geometry.specs.Stands.{geometry_with};

    ghost Value = { PlainGeometry };

    ghost view = { λ g. geometry_with g.kind g.parts.items };

    ghost invariant = { λ g. IsGeometry (geometry_with g.kind g.parts.items) };
}

impl Geometry {
    ghost use Rattle.std.specs.Prelude.{◌≡◌, ◌↔◌, map, IsOk, IfOk, IfErr};
    ghost use Rattle.mvt_geometry.specs.Shapes.{IsGeometry};
    ghost use Rattle.mvt_geometry.specs.Stands.{points_of, geometry_with};

    /// The geometry of these parts, or the parts as they were.
    pub fn new(kind: Kind, parts: Items<Part>) -> Result<Geometry, Items<Part>>
        ensures valid { IsOk result ↔ IsGeometry (geometry_with kind parts.items) }
        ensures ok { IfOk result (λ geometry. geometry ≡ geometry_with kind parts.items) }
        ensures err { IfErr result (λ back. back ≡ parts) }
    {
        if is_geometry(kind, parts.as_slice()) {
            Ok(Geometry { kind, parts })
        } else {
            Err(parts)
        }
    }

    /// The geometry of parts that are known to be one.
    pub(crate) fn of_parts(kind: Kind, parts: Items<Part>) -> Geometry
        requires { IsGeometry (geometry_with kind parts.items) }
        ensures { result ≡ geometry_with kind parts.items }
    {
        Geometry { kind, parts }
    }

    pub fn kind(&self) -> Kind
        ensures { result ≡ self.now.kind }
    {
        self.kind
    }

    /// The parts, in order.
    pub fn parts(&self) -> &[Part]
        ensures parts { map points_of result.now ≡ self.now.parts }
        ensures valid { IsGeometry self.now }
    {
        self.parts.as_slice()
    }

    /// The parts, in the geometry's own memory.
    pub fn into_parts(self) -> Items<Part>
        ensures parts { map points_of result.items ≡ self.parts }
        ensures valid { IsGeometry self }
    {
        let Geometry { kind: _, parts } = self;
        parts
    }
}
