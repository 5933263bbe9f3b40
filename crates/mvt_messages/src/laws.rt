//! Laws of packed bodies. Each is the contract of a function that does nothing.

ghost use Rattle.mvt_messages.specs.Laws.{BadIsNoNumber, ReadIsSpelled, SpelledIsRead};

/// A packed body of numbers spelled one after the other is read as these numbers.
pub fn spelled_is_read()
    ensures { SpelledIsRead }
{}

/// A packed body that is read with no bad chunk is the spellings of its numbers.
pub fn read_is_spelled()
    ensures { ReadIsSpelled }
{}

/// If a chunk of a packed body is bad, the spellings of the numbers before it are a prefix of the
/// body, and no number begins after them.
pub fn bad_is_no_number()
    ensures { BadIsNoNumber }
{}
