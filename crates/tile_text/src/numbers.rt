//! Numbers in decimal digits.

ghost use Rattle.std.specs.Prelude.{◌≡◌, ◌++◌, decimal, OnErr, OnOk};
ghost use Rattle.std.specs.Fmt.{signed_decimal};
ghost use Rattle.tile_text.specs.Extends.{Extends};

use itoa::Buffer;
use std::alloc::AllocError;

/// Adds the number in decimal digits, without leading zeros.
pub fn put_decimal(line: &mut Vec<u8>, number: u64) -> Result<(), AllocError>
    ensures ok { OnOk result (line.new.items ≡ line.old.items ++ decimal number) }
    ensures kept { Extends line.old.items line.new.items }
    ensures err { OnErr result (Extends line.new.items (line.old.items ++ decimal number)) }
{
    line.extend_from_slice(Buffer::new().format(number).as_bytes())
}

/// Adds the number in decimal digits, without leading zeros, after a `-` where it is below 0.
pub fn put_signed_decimal(line: &mut Vec<u8>, integer: i64) -> Result<(), AllocError>
    ensures ok { OnOk result (line.new.items ≡ line.old.items ++ signed_decimal integer) }
    ensures kept { Extends line.old.items line.new.items }
    ensures err { OnErr result (Extends line.new.items (line.old.items ++ signed_decimal integer)) }
{
    line.extend_from_slice(Buffer::new().format(integer).as_bytes())
}
