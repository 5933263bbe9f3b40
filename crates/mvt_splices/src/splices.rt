//! What a step on a list has to say about itself, as a trait.

ghost use Rattle.std.specs.Prelude.{◌≡◌, ◌+◌, ◌≤◌, ◌↔◌, List, length, IsTrue, OnOk};
ghost use Rattle.mvt_splices.specs.Splices.{Splice, IsRoomier, FindsRoom, splice_back, spliced};

use crate::gap::Gap;
use std::alloc::AllocError;

/// A step that takes a part out of a list of such items, and puts items there.
pub trait Splices<T> {
    /// The name of a list. A step is on one, or on none.
    type Place;

    ghost splice_of: { Self → Splice T };

    /// The step that leads back from what this one makes of a list.
    ghost turned: { Self → List T → Self };

    /// The same step with at least as much room.
    ghost roomier: { Self → Self → Type 0 };

    /// The step is on the list at this place.
    ghost on_list: { Self.Place → Self → Type 0 };

    /// Whether it is on the list at this place.
    fn is_on(&self, place: &Self::Place) -> bool
        ensures { IsTrue result ↔ on_list place.now self.now };

    /// How many items it takes out.
    fn taken(&self) -> usize
        ensures { result ≡ (splice_of self.now).taken };

    /// The items that it puts.
    fn put(&self) -> &[T]
        ensures { result.now ≡ (splice_of self.now).put.items };

    /// Makes room for the items that it takes out.
    fn reserve(&mut self) -> Result<(), AllocError>
        ensures same { roomier self.old self.new }
        ensures ok { OnOk result (FindsRoom (splice_of self.new)) };

    /// Carries the step out, and turns it into the step that leads back.
    fn exchange(&mut self, gap: &mut Gap<T>)
        requires there { (splice_of self.old).index + (splice_of self.old).taken ≤ length gap.old.items }
        requires room { length (splice_of self.old).put.items ≤ gap.old.room + (splice_of self.old).taken }
        requires put_room { FindsRoom (splice_of self.old) }
        ensures items { gap.new.items ≡ spliced (splice_of self.old) gap.old.items }
        ensures room { length gap.new.items + gap.new.room ≡ length gap.old.items + gap.old.room }
        ensures turned { self.new ≡ turned self.old gap.old.items };

    ghost roomy_splice: { (s t : Self) → roomier s t → IsRoomier (splice_of s) (splice_of t) };

    ghost as_roomy: { (s : Self) → roomier s s };

    ghost turned_splice: { (s : Self) (items : List T) → splice_of (turned s items) ≡ splice_back (splice_of s) items };

    ghost turned_twice: { (s : Self) (items : List T) → (splice_of s).index + (splice_of s).taken ≤ length items → FindsRoom (splice_of s) → turned (turned s items) (spliced (splice_of s) items) ≡ s };
}
