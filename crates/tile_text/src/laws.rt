//! Laws of how texts, values and geometries are written. Each is the contract of a function that does nothing.

ghost use Rattle.tile_text.specs.Laws.{TextsReadBack, ValuesReadBack, GeometriesReadBack, TextsStandOnALine, ValuesStandOnALine, RawStandsOnALine, GeometriesStandOnALine};

/// The form of any bytes is a word that says those bytes. So a script reads it as those bytes, where
/// a line has room for it: a line has at most 65,536 bytes.
pub fn texts_read_back()
    ensures { TextsReadBack }
{}

/// The form of a value in range is two words that say that value. So a script reads it as that
/// value, where a line has room for both.
pub fn values_read_back()
    ensures { ValuesReadBack }
{}

/// The form of a valid geometry, whose coordinates are from -2147483647 to 2147483647, is words that
/// say that geometry. So a script reads it as that geometry, where a line has room for them.
pub fn geometries_read_back()
    ensures { GeometriesReadBack }
{}

/// No form holds a line feed, be it of any bytes as a text, of a value in range, of bytes that are
/// not a value, or of a valid geometry.
pub fn forms_stand_on_a_line()
    ensures texts { TextsStandOnALine }
    ensures values { ValuesStandOnALine }
    ensures raw { RawStandsOnALine }
    ensures geometries { GeometriesStandOnALine }
{}
