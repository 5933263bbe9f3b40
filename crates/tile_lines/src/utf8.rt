//! Whether bytes are UTF-8.

ghost use Rattle.std.specs.Prelude.{◌≡◌};
ghost use Rattle.std.specs.Str.{is_utf8};

use simdutf8::basic::from_utf8;

/// Whether the bytes are UTF-8.
pub fn is_utf8(bytes: &[u8]) -> bool
    ensures { result ≡ is_utf8 bytes.now }
{
    from_utf8(bytes).is_ok()
}
