//! How far a group goes: the numbers of the open groups, and the way through their fields and tags.

ghost use Rattle.std.specs.Prelude.{◌≡◌, ◌≢◌, ℕ, ◌<◌, ◌≤◌, [], ◌∷◌, List, length, take, IfSome, IfNone};
ghost use Rattle.mvt_document.specs.declared.TheConstants.{MAX_GROUPS};
ghost use Rattle.mvt_document.specs.Begins.{Begins};
ghost use Rattle.mvt_document.specs.Groups.{IsGroup};
ghost use Rattle.mvt_wire.specs.Open.{Closes, LeadsTo};

use crate::front::{flat_body_at_front, read_tag};
use mvt_document::MAX_GROUPS;
use mvt_document::tags::{EGROUP, SGROUP};
use std::marker::Model;

/// The groups that are open at a place. Contracts see their numbers, that of the innermost first.
#[derive(Drop)]
pub(crate) struct OpenGroups {
    numbers: [u32; MAX_GROUPS],
    /// How many more may be open. The numbers are after that many slots.
    free: usize,
}

impl Model for OpenGroups {
    ghost use Rattle.std.specs.Prelude.{drop, ℕ, List, ◌≤◌};
    ghost use Rattle.mvt_document.specs.declared.TheConstants.{MAX_GROUPS};

    ghost Value = { List ℕ };

    ghost view = { λ g. drop g.free g.numbers };

    ghost invariant = { λ g. g.free ≤ MAX_GROUPS };
}

impl OpenGroups {
    ghost use Rattle.std.specs.Prelude.{true, ◌↔◌};

    /// One open group.
    fn new(number: u32) -> Self
        ensures { result ≡ number ∷ [] }
    {
        let mut numbers = [0; MAX_GROUPS];
        let free = MAX_GROUPS - 1;
        numbers[free] = number;
        OpenGroups { numbers, free }
    }

    fn is_empty(&self) -> bool
        ensures { (result ≡ true) ↔ (self.now ≡ []) }
    {
        self.numbers[self.free..].is_empty()
    }

    /// Opens a group inside the innermost one. `None` if as many are open as may be.
    fn open(&mut self, number: u32) -> Option<()>
        ensures opened { IfSome result (λ _. self.new ≡ number ∷ self.old) }
        ensures full { IfNone result (MAX_GROUPS ≤ length self.old) }
    {
        if self.free == 0 {
            return None;
        }
        self.free -= 1;
        self.numbers[self.free] = number;
        Some(())
    }

    /// Closes the innermost group, which must have this number.
    fn close(&mut self, number: u32) -> Option<()>
        ensures closed { IfSome result (λ _. self.old ≡ number ∷ self.new) }
        ensures within { length self.old ≤ MAX_GROUPS }
        ensures other { IfNone result ((others : List ℕ) → self.old ≡ number ∷ others → ⊥) }
    {
        if *self.numbers.get(self.free)? != number {
            return None;
        }
        self.free += 1;
        Some(())
    }
}

/// How many bytes the group of this number takes at the front, including its end tag.
pub(crate) fn group_at_front(number: u32, bytes: &[u8]) -> Option<usize>
    ensures within { IfSome result (λ length_taken. length_taken ≤ length bytes.now) }
    ensures group { IfSome result (λ length_taken. IsGroup number (take length_taken bytes.now)) }
    ensures none { IfNone result (¬ Begins (IsGroup number) (λ group. group) bytes.now) }
{
    let mut groups = OpenGroups::new(number);
    let mut place = 0;
    while !groups.is_empty() {
        place += next_in_group(&mut groups, &bytes[place..])?;
    }
    Some(place)
}

/// How many bytes the next field, start tag or end tag of the innermost group takes.
#[inline(always)]
fn next_in_group(groups: &mut OpenGroups, bytes: &[u8]) -> Option<usize>
    requires { groups.old ≢ [] }
    ensures within { IfSome result (λ length_taken. length_taken ≤ length bytes.now) }
    ensures some { IfSome result (λ length_taken. 1 ≤ length_taken) }
    ensures leads { IfSome result (λ length_taken. LeadsTo (take length_taken bytes.now) groups.old groups.new) }
    ensures none { IfNone result (¬ Begins (Closes groups.old) (λ left. left) bytes.now) }
{
    let tag = read_tag(bytes)?;
    let start = usize::from(tag.width);
    let number = (tag.value / 8) as u32;
    match tag.value % 8 {
        SGROUP => {
            groups.open(number)?;
            Some(start)
        }
        EGROUP => {
            groups.close(number)?;
            Some(start)
        }
        wire_type => {
            let (_, length) = flat_body_at_front(wire_type, &bytes[start..])?;
            Some(start + length)
        }
    }
}
