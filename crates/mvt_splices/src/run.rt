//! Steps on one list, or on one message with its size: each is carried out at the gap, for as long as they are on the
//! list.

ghost use Rattle.std.specs.Prelude.{◌≡◌, ◌+◌, ◌≤◌, List, length, is_ok, if◌then◌else◌, OnErr, OnOk, IfSome, vec_len};
ghost use Rattle.std.specs.List.{flat_map};
ghost use Rattle.mvt_document.specs.Kept.{IsKept};
ghost use Rattle.mvt_document.specs.Lending.{held_in};
ghost use Rattle.mvt_splices.specs.Splices.{CarriesOut, FindsRoom, FitRun, LeadBack, spliced};

use crate::gap::Gap;
use crate::splices::Splices;
use mvt_document::{Item, Items, Measured, Message, size_of_all};
use std::alloc::{AllocError, Global};

/// Carries out the first steps that are on the list at this place, in one pass over it, and turns each into the step
/// that leads back. Returns their number. An `Err` changes nothing but room.
pub fn splice_items<T: Measured, S: Splices<T>>(
    alloc: Global,
    list: &mut Items<T>,
    place: &S::Place,
    steps: &mut [S],
) -> Result<usize, AllocError>
    requires { FitRun (S.on_list place.now) S.splice_of steps.old (length list.old.items) }
    ensures { CarriesOut (S.on_list place.now) S.splice_of S.turned S.roomier result steps.old steps.new list.old list.new }
{
    splice_vec(alloc, list.as_vec_mut(), &mut None, place, steps)
}

/// The same on a message. Its size, if known afterwards, is the right one; no clause says that it
/// stays known.
pub fn splice_message<T: Item, S: Splices<T>>(
    alloc: Global,
    list: &mut Message<T>,
    place: &S::Place,
    steps: &mut [S],
) -> Result<usize, AllocError>
    requires { FitRun (S.on_list place.now) S.splice_of steps.old (length list.old.items) }
    ensures { CarriesOut (S.on_list place.now) S.splice_of S.turned S.roomier result steps.old steps.new list.old list.new }
{
    let mut size = list.known_size();
    let made = splice_vec(alloc, list.as_vec_mut(), &mut size, place, steps);
    list.know_size(size);
    made
}

/// The same on a list that takes `size` bytes, if that is known; and how many it takes then.
fn splice_vec<T: Measured, S: Splices<T>>(
    alloc: Global,
    list: &mut Vec<T>,
    size: &mut Option<usize>,
    place: &S::Place,
    steps: &mut [S],
) -> Result<usize, AllocError>
    requires fit { FitRun (S.on_list place.now) S.splice_of steps.old (vec_len list.old) }
    requires size { IsKept T.bytes list.old.items size.old }
    ensures steps { CarriesOut (S.on_list place.now) S.splice_of S.turned S.roomier result steps.old steps.new (held_in list.old) (held_in list.new) }
    ensures size { IsKept T.bytes list.new.items size.new }
{
    let mut gap = Gap::open(alloc, list);
    let made = exchange_all(&mut gap, size, place, steps);
    gap.close(list);
    made
}

/// Carries out the first steps that are on the list at this place. If memory runs out at one, those
/// before it are taken back, for which there is room, and the gap goes back the way it came.
fn exchange_all<T: Measured, S: Splices<T>>(
    gap: &mut Gap<T>,
    size: &mut Option<usize>,
    place: &S::Place,
    steps: &mut [S],
) -> Result<usize, AllocError>
    requires fit { FitRun (S.on_list place.now) S.splice_of steps.old (length gap.old.items) }
    requires size { IsKept T.bytes gap.old.items size.old }
    ensures steps { CarriesOut (S.on_list place.now) S.splice_of S.turned S.roomier result steps.old steps.new gap.old gap.new }
    ensures size { IsKept T.bytes gap.new.items size.new }
{
    let before = *size;
    let mut made = 0;
    while made < steps.len() && steps[made].is_on(place) {
        match exchange_next(gap, size, &mut steps[made]) {
            Ok(()) => made += 1,
            Err(error) => {
                exchange_back(gap, &mut steps[..made]);
                *size = before;
                return Err(error);
            }
        }
    }
    Ok(made)
}

/// Carries out steps that lead back, from the last to the first: each becomes the step that it was turned from.
fn exchange_back<T, S: Splices<T>>(gap: &mut Gap<T>, steps: &mut [S])
    requires { (first : List S) × (items : List T) × LeadBack S.splice_of S.turned steps.old gap.old first items }
    ensures back { (first : List S) (items : List T) → LeadBack S.splice_of S.turned steps.old gap.old first items → (steps.new ≡ first) × (gap.new.items ≡ items) }
    ensures room { length gap.new.items + gap.new.room ≡ length gap.old.items + gap.old.room }
{
    for at in (0..steps.len()).rev() {
        steps[at].exchange(gap);
    }
}

/// Carries out one step, with room for what it puts and for what it takes out. An `Err` changes nothing but room.
fn exchange_next<T: Measured, S: Splices<T>>(
    gap: &mut Gap<T>,
    size: &mut Option<usize>,
    step: &mut S,
) -> Result<(), AllocError>
    requires there { (S.splice_of step.old).index + (S.splice_of step.old).taken ≤ length gap.old.items }
    requires size { IsKept T.bytes gap.old.items size.old }
    ensures items { gap.new.items ≡ (if is_ok result then spliced (S.splice_of step.old) gap.old.items else gap.old.items) }
    ensures room { length gap.old.items + gap.old.room ≤ length gap.new.items + gap.new.room }
    ensures turned { OnOk result ((roomy : S) × S.roomier step.old roomy × FindsRoom (S.splice_of roomy) × (step.new ≡ S.turned roomy gap.old.items)) }
    ensures err { OnErr result (S.roomier step.old step.new) }
    ensures size { IsKept T.bytes gap.new.items size.new }
{
    make_room(gap, step)?;
    *size = exchange_one(gap, *size, step);
    Ok(())
}

/// Makes room in the list for the items that a step puts, and in the step for those that it takes out.
fn make_room<T, S: Splices<T>>(gap: &mut Gap<T>, step: &mut S) -> Result<(), AllocError>
    ensures items { gap.new.items ≡ gap.old.items }
    ensures room { gap.old.room ≤ gap.new.room }
    ensures step { S.roomier step.old step.new }
    ensures comes { OnOk result (length (S.splice_of step.new).put.items ≤ gap.new.room + (S.splice_of step.new).taken) }
    ensures goes { OnOk result (FindsRoom (S.splice_of step.new)) }
{
    gap.reserve(step.put().len().saturating_sub(step.taken()))?;
    step.reserve()
}

/// Carries out one step, and measures what comes and what goes if the size of all is known.
fn exchange_one<T: Measured, S: Splices<T>>(
    gap: &mut Gap<T>,
    size: Option<usize>,
    step: &mut S,
) -> Option<usize>
    requires there { (S.splice_of step.old).index + (S.splice_of step.old).taken ≤ length gap.old.items }
    requires room { length (S.splice_of step.old).put.items ≤ gap.old.room + (S.splice_of step.old).taken }
    requires put_room { FindsRoom (S.splice_of step.old) }
    requires size { IsKept T.bytes gap.old.items size }
    ensures items { gap.new.items ≡ spliced (S.splice_of step.old) gap.old.items }
    ensures room { length gap.new.items + gap.new.room ≡ length gap.old.items + gap.old.room }
    ensures turned { step.new ≡ S.turned step.old gap.old.items }
    ensures size { IsKept T.bytes gap.new.items result }
{
    let Some(known) = size else {
        step.exchange(gap);
        return None;
    };
    let come = size_of_few(step.put());
    step.exchange(gap);
    let gone = size_of_few(step.put());
    Some(known.checked_add(come?)? - gone?)
}

/// How many bytes the items of a step take. Mostly that is one item, or none.
#[inline(always)]
fn size_of_few<T: Measured>(items: &[T]) -> Option<usize>
    ensures { IfSome result (λ size. size ≡ length (flat_map T.bytes items.now)) }
{
    match items {
        [] => Some(0),
        [item] => item.size_within(usize::MAX),
        _ => size_of_all(items, usize::MAX),
    }
}
