//! Laws of geometries, their integers and their bytes. Each is the contract of a function that does nothing.

ghost use Rattle.mvt_geometry.specs.Laws.{OneGeometry, IntegersHaveTheirs, EncodedArePacked, GeometryIn, IntegersReach};

/// Numbers have at most one geometry of a kind.
pub fn one_geometry()
    ensures { OneGeometry }
{}

/// The integers of a valid geometry in range have it, and no other of its kind.
pub fn integers_have_theirs()
    ensures { IntegersHaveTheirs }
{}

/// The bytes of a valid geometry in range are the shortest spellings of its integers, each a number
/// of 32 bits, so a reader of packed numbers finds exactly these.
pub fn encoded_are_packed()
    ensures { EncodedArePacked }
{}

/// A geometry is found in the numbers of a kind exactly when they have it.
pub fn geometry_in()
    ensures { GeometryIn }
{}

/// No coordinate of a geometry in range is further from 0 than 2^31 times as many integers as the
/// geometry has: in a tile that a file can hold, none reaches 2^62.
pub fn integers_reach()
    ensures { IntegersReach }
{}
