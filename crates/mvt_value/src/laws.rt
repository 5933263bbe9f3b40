//! Laws of values and their bytes. Each is the contract of a function that does nothing.

ghost use Rattle.mvt_value.specs.Laws.{EncodedIsRead, OneValue, ReadIsInRange, OneField, ValueIn};

/// The bytes of a value in range have that value.
pub fn encoded_is_read()
    ensures { EncodedIsRead }
{}

/// Bytes have at most one value.
pub fn one_value()
    ensures { OneValue }
{}

/// A value that bytes have is in range, so it can be written.
pub fn read_is_in_range()
    ensures { ReadIsInRange }
{}

/// Valid fields, with each length in its stored width, whose bytes have a value are a single field,
/// and it has that value.
pub fn one_field()
    ensures { OneField }
{}

/// A value is found in bytes exactly when they have it.
pub fn value_in()
    ensures { ValueIn }
{}
