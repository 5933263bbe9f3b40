//! The runs of a list: its items of one kind, as far as nothing stands between them. The run of a list
//! that is joined, split or spliced is made of those of its parts.

ghost use Rattle.std.specs.Prelude.{◌≡◌, ◌+◌, Bool, true, List, [], ◌∷◌, ◌++◌, ◌≤◌, length, map, min, take, drop, replicate, IfSome, IsTrue};
ghost use Rattle.mvt_document.specs.Runs.{IsRun, IsRunOf, AreRunsOf};
ghost use Rattle.mvt_document.specs.Splicing.{splice};

use crate::item::Item;

/// How many items are looked at for each kind at a time.
const PART: usize = 256;

/// What an item of a list can be. A layer has names, features as its messages, keys and values; a tile has
/// layers as its messages, and none of the others.
#[derive(Clone, Copy)]
pub enum Kind {
    Name,
    Message,
    Key,
    Value,
}

/// Of the items before `until`, those of one kind: `count` items from `first`. Nothing is known of
/// the items from `until` on.
#[derive(Clone, Copy, Debug)]
pub struct Run {
    pub first: usize,
    pub count: usize,
    pub until: usize,
}

/// The run of each kind.
#[derive(Clone, Copy)]
pub struct Runs {
    pub names: Run,
    pub messages: Run,
    pub keys: Run,
    pub values: Run,
}

impl Run {
    /// That of a list of which nothing is known.
    #[tactic(auto, using(crate::proofs::Running::nothing_known))]
    pub(crate) fn unknown() -> Run
        ensures { (items : List Bool) → IsRun result items }
    {
        Run {
            first: 0,
            count: 0,
            until: 0,
        }
    }

    /// That of one item.
    #[inline(always)]
    #[tactic(auto, using(crate::proofs::Running::one_known))]
    pub(crate) fn of_one(is_of_kind: bool) -> Run
        ensures { IsRun result (is_of_kind ∷ []) }
    {
        Run {
            first: 0,
            count: usize::from(is_of_kind),
            until: 1,
        }
    }

    /// That of `count` items, all of the kind or none of it.
    #[inline(always)]
    fn of_same(count: usize, are_of_kind: bool) -> Run
        ensures { IsRun result (replicate count are_of_kind) }
    {
        Run {
            first: if are_of_kind { 0 } else { count },
            count: if are_of_kind { count } else { 0 },
            until: count,
        }
    }

    /// That of a list of which everything is known, and of another one after it.
    #[inline(always)]
    #[tactic(auto, using(crate::proofs::Running::after_none, crate::proofs::Running::runs_meet, crate::proofs::Running::with_none, crate::proofs::Running::with_others))]
    pub(crate) fn joined(self, following: Run) -> Option<Run>
        ensures { (items more : List Bool) → IsRun self items → self.until ≡ length items → IsRun following more → IfSome result (λ run. IsRun run (items ++ more)) }
    {
        let until = self.until.checked_add(following.until)?;
        if self.count == 0 {
            return Some(Run {
                first: self.until.checked_add(following.first)?,
                count: following.count,
                until,
            });
        }
        if following.first == 0 && self.first.checked_add(self.count)? == self.until {
            return Some(Run {
                first: self.first,
                count: self.count.checked_add(following.count)?,
                until,
            });
        }
        if following.count == 0 {
            return Some(Run { until, ..self });
        }
        Some(Run {
            until: self.until.checked_add(following.first)?,
            ..self
        })
    }

    /// That of the items before an index.
    #[tactic(auto, using(crate::proofs::Running::front_of))]
    fn front(self, index: usize) -> Run
        ensures items { (items : List Bool) → IsRun self items → IsRun result (take index items) }
        ensures until { result.until ≡ min self.until index }
    {
        Run {
            first: self.first.min(index),
            count: self.count.min(index.saturating_sub(self.first)),
            until: self.until.min(index),
        }
    }

    /// That of the items from `index` on, up to which everything is known.
    #[tactic(auto, using(crate::proofs::Running::back_of))]
    fn back(self, index: usize) -> Run
        ensures { (items : List Bool) → IsRun self items → index ≤ self.until → IsRun result (drop index items) }
    {
        Run {
            first: self.first.saturating_sub(index),
            count: self.count.saturating_sub(index.saturating_sub(self.first)),
            until: self.until.saturating_sub(index),
        }
    }

    /// That of the list once `taken` items from `index` are exchanged for `given` others, whose run
    /// is `put`.
    pub(crate) fn spliced(self, index: usize, taken: usize, put: Run, given: usize) -> Run
        ensures { (items come : List Bool) → IsRun self items → index ≤ length items → IsRun put come → given ≡ length come → IsRun result (splice index taken come items) }
    {
        let front = self.front(index);
        if self.until < index {
            return front;
        }
        let Some(middle) = front.joined(put) else {
            return front;
        };
        match self.with_back(index, taken, middle, given) {
            Some(whole) => whole,
            None => middle,
        }
    }

    /// The same, where everything is known up to what is after the exchange.
    fn with_back(self, index: usize, taken: usize, middle: Run, given: usize) -> Option<Run>
        ensures { (items come : List Bool) → IsRun self items → IsRun middle come → index + given ≡ length come → IfSome result (λ run. IsRun run (come ++ drop (index + taken) items)) }
    {
        let end = index.checked_add(taken)?;
        if middle.until != index.checked_add(given)? || self.until < end {
            return None;
        }
        middle.joined(self.back(end))
    }
}

impl Runs {
    /// Those of a list of which nothing is known.
    pub(crate) fn unknown() -> Runs
        ensures { (items : List Bool) → IsRun result.names items × IsRun result.messages items × IsRun result.keys items × IsRun result.values items }
    {
        let unknown = Run::unknown();
        Runs {
            names: unknown,
            messages: unknown,
            keys: unknown,
            values: unknown,
        }
    }
}

/// The run of the items of this kind.
fn run_of<T: Item>(items: &[T], kind: Kind) -> Run
    ensures { IsRunOf (T.of_kind kind) result items.now }
{
    let first = leading(items, kind, false);
    let following = &items[first..];
    let count = leading(following, kind, true);
    let rest = &following[count..];
    let others = leading(rest, kind, false);
    Run {
        first,
        count,
        until: first + count + others,
    }
}

/// The run of each kind in the items of a part. Most parts have items of only one kind.
fn runs_of_part<T: Item>(part: &[T]) -> Runs
    ensures { AreRunsOf T.of_kind result part.now }
{
    for kind in [Kind::Message, Kind::Key, Kind::Value] {
        if leading(part, kind, true) == part.len() {
            return runs_of_whole(part, kind);
        }
    }
    Runs {
        names: run_of(part, Kind::Name),
        messages: run_of(part, Kind::Message),
        keys: run_of(part, Kind::Key),
        values: run_of(part, Kind::Value),
    }
}

/// The same, where all items are of this kind.
fn runs_of_whole<T: Item>(part: &[T], kind: Kind) -> Runs
    requires { map (T.of_kind kind) part.now ≡ replicate (length part.now) true }
    ensures { AreRunsOf T.of_kind result part.now }
{
    let all = Run::of_same(part.len(), true);
    let none = Run::of_same(part.len(), false);
    let others = Runs {
        names: none,
        messages: none,
        keys: none,
        values: none,
    };
    match kind {
        Kind::Name => Runs {
            names: all,
            ..others
        },
        Kind::Message => Runs {
            messages: all,
            ..others
        },
        Kind::Key => Runs {
            keys: all,
            ..others
        },
        Kind::Value => Runs {
            values: all,
            ..others
        },
    }
}

/// The runs of each kind in `seen` items and in a part after them, where `runs` are those of the
/// items alone.
fn runs_with_part<T: Item>(runs: Runs, seen: usize, part: &[T]) -> Runs
    ensures { (items : List T) → AreRunsOf T.of_kind runs items → seen ≡ length items → AreRunsOf T.of_kind result (items ++ part.now) }
{
    let following = runs_of_part(part);
    let count = part.len();
    Runs {
        names: runs.names.spliced(seen, 0, following.names, count),
        messages: runs.messages.spliced(seen, 0, following.messages, count),
        keys: runs.keys.spliced(seen, 0, following.keys, count),
        values: runs.values.spliced(seen, 0, following.values, count),
    }
}

/// The run of each kind. A part of the items is looked at for each kind while it is in the cache.
pub(crate) fn runs_of<T: Item>(items: &[T]) -> Runs
    ensures { AreRunsOf T.of_kind result items.now }
{
    let mut runs = Runs::unknown();
    let mut seen = 0;
    for part in items.chunks(PART) {
        runs = runs_with_part(runs, seen, part);
        seen += part.len();
    }
    runs
}

/// How many items at the front are of the kind, or are not: with a loop of its own for each kind.
fn leading<T: Item>(items: &[T], kind: Kind, wanted: bool) -> usize
    ensures within { result ≤ length items.now }
    ensures items { map (T.of_kind kind) (take result items.now) ≡ replicate result wanted }
{
    match kind {
        Kind::Name => leading_of(items, Kind::Name, wanted),
        Kind::Message => leading_of(items, Kind::Message, wanted),
        Kind::Key => leading_of(items, Kind::Key, wanted),
        Kind::Value => leading_of(items, Kind::Value, wanted),
    }
}

/// The same, where the kind is known to the compiler.
#[inline(always)]
fn leading_of<T: Item>(items: &[T], kind: Kind, wanted: bool) -> usize
    ensures within { result ≤ length items.now }
    ensures items { map (T.of_kind kind) (take result items.now) ≡ replicate result wanted }
{
    for index in 0..items.len() {
        let found = items[index].is_of(kind);
        if found != wanted {
            return index;
        }
    }
    items.len()
}
