//! Laws of histories. Each function does nothing: its contract is the law.

ghost use Rattle.std.specs.Prelude.{◌≡◌};
ghost use Rattle.mvt_history_steps.specs.declared.TheConstants.{MAX_DEPTH, MAX_MARKS};

/// The greatest depth of a session is 10,000 (`depth`), and the greatest number of its marks is 256
/// (`marks`).
pub fn limits()
    ensures depth { MAX_DEPTH ≡ 10000 }
    ensures marks { MAX_MARKS ≡ 256 }
{}
