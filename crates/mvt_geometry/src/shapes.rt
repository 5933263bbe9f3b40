//! Points, parts and kinds of geometries.

ghost use Rattle.std.specs.Prelude.{◌≡◌, IfSome, IfNone};
ghost use Rattle.mvt_geometry.specs.Shapes.{kind_number, least_points};

use mvt_document::Items;

/// A place in a tile. The y axis goes down.
#[derive(Clone, Copy, Debug, PartialEq, Eq)]
pub struct Point {
    pub x: i64,
    pub y: i64,
}

/// Where the first delta of a geometry starts.
pub(crate) const ORIGIN: Point = Point { x: 0, y: 0 };

/// Points that belong together: all dots, or the points of one line or of one ring.
#[derive(Debug, Drop)]
pub struct Part {
    pub points: Items<Point>,
}

/// What the parts of a geometry are.
#[derive(Clone, Copy, Debug, PartialEq, Eq)]
pub enum Kind {
    /// POINT
    Dots,
    /// LINESTRING
    Lines,
    /// POLYGON: the parts are its rings. ClosePath leads back to the first point of a ring, so that
    /// need not be its last point too; in a ring that is read it may be.
    Areas,
}

const DOTS: u64 = 1;

const LINES: u64 = 2;

const AREAS: u64 = 3;

impl Kind {
    /// The number of the kind in a feature.
    pub fn number(self) -> u64
        ensures { result ≡ kind_number self }
    {
        match self {
            Kind::Dots => DOTS,
            Kind::Lines => LINES,
            Kind::Areas => AREAS,
        }
    }

    /// The kind with this number. UNKNOWN, which is 0, is not a kind.
    pub fn from_number(number: u64) -> Option<Kind>
        ensures found { IfSome result (λ kind. kind_number kind ≡ number) }
        ensures none { IfNone result ((kind : Self) → kind_number kind ≡ number → ⊥) }
    {
        match number {
            DOTS => Some(Kind::Dots),
            LINES => Some(Kind::Lines),
            AREAS => Some(Kind::Areas),
            _ => None,
        }
    }

    /// The least number of points in a part of such a geometry.
    pub(crate) fn least_points(self) -> usize
        ensures { result ≡ least_points self }
    {
        match self {
            Kind::Dots => 1,
            Kind::Lines => 2,
            Kind::Areas => 3,
        }
    }
}
