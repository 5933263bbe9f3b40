//! Laws of the commands on geometry. Each function does nothing: its contract is the law.

ghost use Rattle.command_laws.specs.GeometryLaws.{NoCoordinateIsFar, SetGeometrySets, ShiftBack, ShiftByNothing, ShiftShifts};

/// In a valid document of at most 67,108,864 bytes no coordinate of a feature's geometry is further
/// from 0 than 2^57: its deltas are below 2^31, and it has no more integers than the document has bytes.
/// So the bound of 2^62 on coordinates asks nothing more of a geometry.
pub fn no_coordinate_is_far()
    ensures { NoCoordinateIsFar }
{}

/// Where a shift of a valid document of at most 67,108,864 bytes is accepted, every point of every
/// part of the selected feature moves by that much. Nothing but the second and the third number of
/// its geometry differs: the other numbers keep their spellings and stay in their fields, each field
/// keeps its tag and its stored width, and all other fields, the other features and the other layers
/// are as they were.
pub fn shift_shifts()
    ensures { ShiftShifts }
{}

/// An accepted shift by 0 and 0 changes nothing.
pub fn shift_by_nothing()
    ensures { ShiftByNothing }
{}

/// Where a shift of a valid document of at most 67,108,864 bytes is accepted, and the numbers that
/// it changes were in their shortest spelling, shifting back is then accepted, and leaves the
/// document as it was before both, to the byte.
pub fn shift_back()
    ensures { ShiftBack }
{}

/// Where a valid geometry is accepted, the selected feature has exactly that one, in one geometry
/// field, and its kind. All its fields that are neither kind nor geometry, the other features and
/// the other layers are as they were.
pub fn set_geometry_sets()
    ensures { SetGeometrySets }
{}
