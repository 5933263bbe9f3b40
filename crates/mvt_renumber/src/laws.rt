//! Laws of numbers that are decided on. Each is the contract of a function that does nothing.

ghost use Rattle.mvt_renumber.specs.Laws.{AppendedIsRead, FieldNoLonger, KeptStays, LeftIsRead, LowerNoLonger, NoLonger, OthersStay, ReadOfFields, StaysValid};

/// Where no chunk is bad, the numbers that are read from a message are those of its fields, one field
/// after the other.
pub fn read_of_fields()
    ensures { ReadOfFields }
{}

/// Where no chunk is bad, and each value that is decided on is below 2^64, what is read from a message
/// after its numbers were decided on is the numbers that are left, each in its old spelling if it
/// keeps its value, and otherwise in the shortest.
pub fn left_is_read()
    ensures { LeftIsRead }
{}

/// Decisions by which each number keeps its value change no field.
pub fn kept_stays()
    ensures { KeptStays }
{}

/// If each number keeps its value or goes, no field gets longer (`field`), and the fields of a
/// message together take no more bytes (`all`).
pub fn no_longer()
    ensures field { FieldNoLonger }
    ensures all { NoLonger }
{}

/// If each number of valid fields gets no greater value or goes, the fields together take no more
/// bytes.
pub fn lower_no_longer()
    ensures { LowerNoLonger }
{}

/// If one number of a packed body gets another value, all bytes before and after it stay.
pub fn others_stay()
    ensures { OthersStay }
{}

/// Where no chunk is bad, fields that are added at the end of a message add their numbers, after those
/// that it has.
pub fn appended_is_read()
    ensures { AppendedIsRead }
{}

/// Valid fields stay valid if each value that is decided on is below 2^64.
pub fn stays_valid()
    ensures { StaysValid }
{}
