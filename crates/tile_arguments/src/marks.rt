//! What follows a mark at the beginning of a bare word.

ghost use Rattle.std.specs.Prelude.{◌≡◌, option_copied};
ghost use Rattle.tile_arguments.specs.Arguments.{after_mark};

/// What follows the mark, where the bytes begin with it.
pub(crate) fn after_mark<'a>(mark: &[u8], bytes: &'a [u8]) -> Option<&'a [u8]>
    ensures { option_copied result ≡ after_mark mark.now bytes.now }
{
    bytes.strip_prefix(mark)
}
