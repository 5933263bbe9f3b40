//! Of what kind an item of a tile or of a layer is, whether it has an id, and the hash of that.

ghost use Rattle.std.specs.Prelude.{◌≡◌, ℕ, Bool, IfSome, IsTrue};
ghost use Rattle.mvt_document.specs.declared.run.Kind.{Kind};

use crate::measure::Measured;
use crate::run::Kind;

/// An item of a message, of which it is known of what kind it is there, whether it has an id, and what hash that
/// has.
pub trait Item: Measured {
    ghost of_kind: { Kind → Self → Bool };

    /// It is of at most one kind.
    ghost one_kind: { (is other : Kind) (x : Self) → IsTrue (of_kind is x) → IsTrue (of_kind other x) → is ≡ other };

    ghost has_id: { Self → Bool };

    ghost id_hash: { Self → ℕ };

    /// Whether it is of this kind.
    fn is_of(&self, kind: Kind) -> bool
        ensures { result ≡ of_kind kind self.now };

    /// Whether it has an id.
    fn has_id(&self) -> bool
        ensures { result ≡ has_id self.now };

    /// The hash of its id, or 0 if it has none; `None` where items of this kind never have ids.
    fn id_hash(&self) -> Option<u32>
        ensures { IfSome result (λ hash. hash ≡ id_hash self.now) }
    {
        None
    }
}
