//! The ZigZag of a number, and the number of a ZigZag.

ghost use Rattle.std.specs.Prelude.{◌≡◌};
ghost use Rattle.mvt_document.specs.Signed.{zigzag};

/// The ZigZag of the number.
pub fn to_zigzag(number: i64) -> u64
    ensures { result ≡ zigzag number }
{
    if number < 0 {
        2 * (!number as u64) + 1
    } else {
        2 * (number as u64)
    }
}

/// The number with this ZigZag.
pub fn from_zigzag(value: u64) -> i64
    ensures { zigzag result ≡ value }
{
    let half = (value / 2) as i64;
    if value % 2 == 0 { half } else { !half }
}
