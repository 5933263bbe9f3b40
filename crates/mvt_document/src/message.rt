//! The items of a tile or of a layer, how many bytes they take, and the runs in which those of a kind stand:
//! known from when they were read, and kept across changes. A feature is small, and is measured when it has to
//! be.

ghost use Rattle.std.specs.Prelude.{◌≡◌, ◌≤◌, ◌+◌, ◌++◌, ◌↔◌, ℕ, length, slice_get, Some, None, IfSome, IsTrue};
ghost use Rattle.std.specs.List.{flat_map};
ghost use Rattle.std.specs.Option.{IsSomeAnd, SomeIff};
ghost use Rattle.mvt_document.specs.declared.TheConstants.{MAX_FILE};
ghost use Rattle.mvt_document.specs.Hashes.{AreHashes};
ghost use Rattle.mvt_document.specs.Kept.{IsKept, bytes_beside};
ghost use Rattle.mvt_document.specs.Runs.{AreRunsOf};

use crate::MAX_FILE;
use crate::exchange::move_item;
use crate::item::Item;
use crate::kept::Kept;
use crate::measure::{size_beside_part, size_of_all, sum_within};
use crate::put::Put;
use crate::run::{Kind, Run, Runs, runs_of};
use std::alloc::{AllocError, AllocFailed};
use std::fmt;
use std::marker::Model;

/// The least number of items for which runs are found. A list that had so many keeps its runs when it has fewer.
const MANY_ITEMS: usize = 32;

/// The items of a message, how many bytes they take where that is known, and in which runs those of a
/// kind stand, as far as that is known. Contracts see the items and the room for more.
#[derive(Drop)]
pub struct Message<T: Item> {
    inner: Vec<T>,
    kept: Kept,
}

impl<T: Item> Model for Message<T> {
    ghost use Rattle.std.specs.Prelude.{◌-◌, IfSome, vec_len, vec_capacity};
    ghost use Rattle.mvt_document.specs.Held.{Held};
    ghost use Rattle.mvt_document.specs.Hashes.{AreHashes};
    ghost use Rattle.mvt_document.specs.Kept.{IsKept};
    ghost use Rattle.mvt_document.specs.Runs.{AreRunsOf};

    ghost Value = { Held T };

    ghost view = { λ l. record { items = l.inner.items; room = vec_capacity l.inner - vec_len l.inner } };

    ghost invariant = { λ l. IsKept T.bytes l.inner.items l.kept.size × IfSome l.kept.runs (λ runs. AreRunsOf T.of_kind runs l.inner.items) × AreHashes T.id_hash l.kept.hashes l.inner.items };
}

impl<T: Item + fmt::Debug> fmt::Debug for Message<T> {
    fn fmt<W: fmt::Write>(&self, f: &mut fmt::Formatter<W>) -> fmt::Result {
        f.debug_list().entries(self.as_slice()).finish()
    }
}

impl<T: Item> Message<T> {
    ghost use Rattle.std.specs.Prelude.{IfSome, slice_get, ◌<◌, ◌∷◌, [], ◌++◌, if◌then◌else◌, is_ok, IsOk};
    ghost use Rattle.std.specs.Option.{IsSomeAnd};
    ghost use Rattle.mvt_document.specs.Splicing.{moved, part, splice};
    ghost use Rattle.std.specs.Borrow.{sem};
    ghost use Rattle.mvt_document.specs.Hashes.{AreHashes};
    ghost use Rattle.mvt_document.specs.Kept.{IsKept, bytes_beside};
    ghost use Rattle.mvt_document.specs.Runs.{AreRunsOf, IsRunOf};
    ghost use Rattle.mvt_document.specs.HeldPlaces.{change_held_at};
    ghost use Rattle.mvt_document.specs.Made.{MakesThere, StaysOfKind, TakesList};
    ghost use Rattle.mvt_document.specs.Lending.{held_in};
    ghost use Rattle.mvt_document.specs.LendingKept.{LendsVecKept};

    /// The message of a vector's items, in the vector's own memory, when it is known how many bytes
    /// they take.
    pub fn of_size(inner: Vec<T>, sum: usize) -> Self
        requires { sum ≡ length (flat_map T.bytes inner.items) }
        ensures { result.items ≡ inner.items }
    {
        let mut kept = Kept::of_size(sum);
        find_runs(&mut kept, &inner);
        Message { inner, kept }
    }

    pub fn as_slice(&self) -> &[T]
        ensures { result.now ≡ self.now.items }
    {
        self.inner.as_slice()
    }

    pub fn len(&self) -> usize
        ensures { result ≡ length self.now.items }
    {
        self.inner.len()
    }

    /// The runs in which the items of each kind stand.
    pub fn runs(&self) -> Runs
        ensures { AreRunsOf T.of_kind result self.now.items }
    {
        match self.kept.runs() {
            Some(runs) => runs,
            None => Runs::unknown(),
        }
    }

    /// The hashes of the ids of the items at the front, as far as they are kept.
    pub fn id_hashes(&self) -> &[u32]
        ensures { AreHashes T.id_hash result.now self.now.items }
    {
        self.kept.hashes()
    }

    /// The run of the items of this kind.
    fn run(&self, kind: Kind) -> Run
        ensures { IsRunOf (T.of_kind kind) result self.now.items }
    {
        let runs = self.runs();
        match kind {
            Kind::Name => runs.names,
            Kind::Message => runs.messages,
            Kind::Key => runs.keys,
            Kind::Value => runs.values,
        }
    }

    /// How many bytes the items take, if they are within the limit.
    pub fn size_within(&self, limit: usize) -> Option<usize>
        ensures { SomeIff result (length (flat_map T.bytes self.now.items) ≤ limit) (length (flat_map T.bytes self.now.items)) }
    {
        match self.kept.size() {
            Some(sum) => sum_within(sum, 0, limit),
            None => size_of_all(self.inner.as_slice(), limit),
        }
    }

    /// The same, if that is within the limit of a file.
    pub fn size(&self) -> Option<usize>
        ensures { SomeIff result (length (flat_map T.bytes self.now.items) ≤ MAX_FILE) (length (flat_map T.bytes self.now.items)) }
    {
        self.size_within(MAX_FILE)
    }

    /// How many bytes the items other than this one take, if that is known.
    pub(crate) fn size_beside(&self, index: usize) -> Option<usize>
        ensures { IfSome result (λ n. n ≡ bytes_beside T.bytes index self.now.items) }
    {
        let item = self.inner.get(index)?;
        let sum = self.kept.size()?;
        Some(sum - item.size()?)
    }

    /// How many bytes the items other than the `count` from `index` take, if they are within the
    /// limit. Where the size is known, only those `count` are measured.
    pub fn size_beside_part(&self, index: usize, count: usize, limit: usize) -> Option<usize>
        requires { index + count ≤ length self.now.items }
        ensures { let size = length (flat_map T.bytes (splice index count [] self.now.items)) in SomeIff result (size ≤ limit) size }
    {
        let Some(sum) = self.kept.size() else {
            return size_beside_part(self.inner.as_slice(), index, count, limit);
        };
        let part = size_of_all(&self.inner[index..index + count], sum)?;
        sum_within(sum - part, 0, limit)
    }

    /// Changes the item at this index, which stays of its kind, and the values beside it. The size, where it
    /// was known, is that of the items afterwards, or no longer known if they are too long for a file. The runs are
    /// the same.
    pub(crate) fn change_item<W, R, F: FnOnce(&mut T, &mut [W]) -> R>(
        &mut self,
        index: usize,
        beside: &mut [W],
        change: F,
    ) -> R
        requires { IsSomeAnd (slice_get self.old.items index) (λ item. TakesList F.FnOnce change item beside.old × StaysOfKind F.FnOnce change T.of_kind item beside.old) }
        ensures { MakesThere F.FnOnce change (slice_get self.old.items index) beside.old result beside.new (λ made. self.new ≡ change_held_at (λ _. made) index self.old) }
    {
        let others = self.size_beside(index);
        let result = change(&mut self.inner[index], beside);
        let size = size_with(self.inner.as_slice(), index, others);
        self.kept.set_size(size);
        self.kept.set_hash(index, &self.inner[index]);
        result
    }

    /// Forgets how many bytes the items take. Before many of them change, that saves measuring each of them
    /// twice: see `measure`.
    pub fn forget_size(&mut self)
        ensures { self.new ≡ self.old }
    {
        let unknown = None;
        self.kept.set_size(unknown);
    }

    /// Measures the items, where it is not known how many bytes they take.
    pub fn measure(&mut self)
        ensures { self.new ≡ self.old }
    {
        let measured = self.size();
        self.kept.set_size(measured);
    }

    /// How many bytes the items take, if that is known.
    pub fn known_size(&self) -> Option<usize>
        ensures { IsKept T.bytes self.now.items result }
    {
        self.kept.size()
    }

    /// The vector that the items are in. The size, the runs and the hashes are no longer known: see `know_size`.
    pub fn as_vec_mut(&mut self) -> &mut Vec<T>
        ensures* writes_back { sem 𝓛 (LendsVecKept T.row T.Measured T.Item.own self.entry result) }
        ensures value { held_in result.now ≡ self.old }
    {
        self.kept.set_size(None);
        self.kept.set_runs(Runs::unknown());
        self.kept.cut_hashes(0);
        &mut self.inner
    }

    /// Makes the size known again, and the runs and the hashes.
    pub fn know_size(&mut self, known: Option<usize>)
        requires { IsKept T.bytes self.old.items known }
        ensures { self.new ≡ self.old }
    {
        let runs = runs_of(self.inner.as_slice());
        keep(&mut self.kept, &self.inner, known, runs);
    }

    /// Adds an item at the end. An `Err` changes nothing; it occurs only when the list has to grow.
    pub fn push(&mut self, item: T) -> Result<(), AllocFailed<T>>
        ensures items { self.new.items ≡ (if is_ok result then self.old.items ++ item ∷ [] else self.old.items) }
        ensures room { length self.old.items + self.old.room ≤ length self.new.items + self.new.room }
        ensures succeeds { 0 < self.old.room → IsOk result }
    {
        let size = self.size_pushed(&item);
        let runs = self.runs_pushed(&item);
        self.inner.push(item)?;
        keep(&mut self.kept, &self.inner, size, runs);
        Ok(())
    }

    /// How many bytes the items take once this item is added after the others, if that is known.
    fn size_pushed(&self, item: &T) -> Option<usize>
        ensures { IsKept T.bytes (self.now.items ++ item.now ∷ []) result }
    {
        let sum = self.kept.size()?;
        sum_within(sum, item.size()?, MAX_FILE)
    }

    /// The run of the items of a kind once this item is added after the others.
    fn run_pushed(&self, kind: Kind, item: &T) -> Run
        ensures { IsRunOf (T.of_kind kind) result (self.now.items ++ item.now ∷ []) }
    {
        self.run(kind)
            .spliced(self.len(), 0, Run::of_one(item.is_of(kind)), 1)
    }

    /// The same for each kind.
    fn runs_pushed(&self, item: &T) -> Runs
        ensures { AreRunsOf T.of_kind result (self.now.items ++ item.now ∷ []) }
    {
        Runs {
            names: self.run_pushed(Kind::Name, item),
            messages: self.run_pushed(Kind::Message, item),
            keys: self.run_pushed(Kind::Key, item),
            values: self.run_pushed(Kind::Value, item),
        }
    }

    /// How many bytes the items take once `taken` of them from `index` are exchanged for the ones
    /// to put, if that is known.
    fn size_exchanged(&self, index: usize, taken: usize, put: &Put<T>) -> Option<usize>
        requires { index + taken ≤ length self.now.items }
        ensures { IsKept T.bytes (splice index taken put.now.items self.now.items) result }
    {
        let sum = self.kept.size()?;
        let gone = size_of_all(&self.inner[index..index + taken], usize::MAX)?;
        let come = size_of_all(put.as_slice(), usize::MAX)?;
        sum_within(sum - gone, come, usize::MAX)
    }

    /// The run of the items of a kind once `taken` items from `index` are exchanged for the ones to
    /// put, whose run is `put_run`.
    fn run_exchanged(
        &self,
        kind: Kind,
        index: usize,
        taken: usize,
        put: &Put<T>,
        put_run: Run,
    ) -> Run
        requires there { index + taken ≤ length self.now.items }
        requires put { IsRunOf (T.of_kind kind) put_run put.now.items }
        ensures { IsRunOf (T.of_kind kind) result (splice index taken put.now.items self.now.items) }
    {
        self.run(kind).spliced(index, taken, put_run, put.len())
    }

    /// The same for each kind.
    fn runs_exchanged(&self, index: usize, taken: usize, put: &Put<T>) -> Runs
        requires { index + taken ≤ length self.now.items }
        ensures { AreRunsOf T.of_kind result (splice index taken put.now.items self.now.items) }
    {
        let runs = runs_of(put.as_slice());
        Runs {
            names: self.run_exchanged(Kind::Name, index, taken, put, runs.names),
            messages: self.run_exchanged(Kind::Message, index, taken, put, runs.messages),
            keys: self.run_exchanged(Kind::Key, index, taken, put, runs.keys),
            values: self.run_exchanged(Kind::Value, index, taken, put, runs.values),
        }
    }

    /// Exchanges `taken` items from `index` for the ones to put, as `Items::exchange` does. The size,
    /// if it is known afterwards, is the right one; no clause says that it stays known.
    pub fn exchange(
        &mut self,
        index: usize,
        taken: usize,
        put: &mut Put<T>,
    ) -> Result<(), AllocError>
    where
        T: Drop,
        requires { index + taken ≤ length self.old.items }
        ensures items { self.new.items ≡ (if is_ok result then splice index taken put.old.items self.old.items else self.old.items) }
        ensures put { put.new.items ≡ (if is_ok result then part index taken self.old.items else put.old.items) }
        ensures room { length self.old.items + self.old.room ≤ length self.new.items + self.new.room }
        ensures put_room { length put.old.items + put.old.room ≤ length put.new.items + put.new.room }
        ensures succeeds { length put.old.items ≤ self.old.room + taken → taken ≤ length put.old.items + put.old.room → IsOk result }
    {
        let size = self.size_exchanged(index, taken, put);
        let runs = self.runs_exchanged(index, taken, put);
        let given = put.len();
        put.exchange_in(&mut self.inner, index, taken)?;
        let come = &self.inner[index..index + given];
        self.kept.exchange_hashes(index, taken, come);
        keep(&mut self.kept, &self.inner, size, runs);
        Ok(())
    }

    /// The run of the items of a kind once the item at one position has moved to the other.
    fn run_moved(&self, kind: Kind, from: usize, to: usize) -> Run
        requires there { from < length self.now.items }
        requires within { to < length self.now.items }
        ensures { IsRunOf (T.of_kind kind) result (moved from to self.now.items) }
    {
        let items = self.as_slice();
        let left = self.run(kind).spliced(from, 1, Run::unknown(), 0);
        left.spliced(to, 0, Run::of_one(items[from].is_of(kind)), 1)
    }

    /// The same for each kind.
    fn runs_moved(&self, from: usize, to: usize) -> Runs
        requires there { from < length self.now.items }
        requires within { to < length self.now.items }
        ensures { AreRunsOf T.of_kind result (moved from to self.now.items) }
    {
        Runs {
            names: self.run_moved(Kind::Name, from, to),
            messages: self.run_moved(Kind::Message, from, to),
            keys: self.run_moved(Kind::Key, from, to),
            values: self.run_moved(Kind::Value, from, to),
        }
    }

    /// Takes the item at one position out and puts it back so that it is at the other.
    pub fn move_item(&mut self, from: usize, to: usize)
        requires there { from < length self.old.items }
        requires within { to < length self.old.items }
        ensures items { self.new.items ≡ moved from to self.old.items }
        ensures room { self.new.room ≡ self.old.room }
    {
        let runs = self.runs_moved(from, to);
        self.kept.move_hash(self.inner.as_slice(), from, to);
        move_item(self.inner.as_mut_slice(), from, to);
        self.kept.set_runs(runs);
    }
}

/// How many bytes the items take, if it is known how many those other than this one take.
fn size_with<T: Item>(items: &[T], index: usize, beside: Option<usize>) -> Option<usize>
    requires { IfSome beside (λ n. n ≡ bytes_beside T.bytes index items.now) }
    ensures { IsKept T.bytes items.now result }
{
    let beside = beside?;
    let item = items.get(index)?;
    sum_within(beside, item.size()?, MAX_FILE)
}

/// Finds the runs and the hashes of these items, if none were kept and the items are many.
fn find_runs<T: Item>(kept: &mut Kept, items: &Vec<T>)
    requires runs { kept.old.runs ≡ None }
    requires hashes { AreHashes T.id_hash kept.old.hashes items.now.items }
    ensures size { kept.new.size ≡ kept.old.size }
    ensures runs { IfSome kept.new.runs (λ runs. AreRunsOf T.of_kind runs items.now.items) }
    ensures hashes { AreHashes T.id_hash kept.new.hashes items.now.items }
{
    if items.len() < MANY_ITEMS {
        return;
    }
    kept.add_runs(*items.allocator(), Runs::unknown());
    if kept.has_runs() {
        keep_runs(kept, items.as_slice(), runs_of(items.as_slice()));
    }
}

/// Keeps this size, and these runs in place of those kept, or finds them if none were kept and the items
/// are now many.
fn keep<T: Item>(kept: &mut Kept, items: &Vec<T>, size: Option<usize>, runs: Runs)
    requires size { IsKept T.bytes items.now.items size }
    requires runs { AreRunsOf T.of_kind runs items.now.items }
    requires hashes { AreHashes T.id_hash kept.old.hashes items.now.items }
    ensures size { IsKept T.bytes items.now.items kept.new.size }
    ensures runs { IfSome kept.new.runs (λ runs. AreRunsOf T.of_kind runs items.now.items) }
    ensures hashes { AreHashes T.id_hash kept.new.hashes items.now.items }
{
    kept.set_size(size);
    if kept.has_runs() {
        keep_runs(kept, items.as_slice(), runs);
    } else {
        find_runs(kept, items);
    }
}

/// Keeps these runs in place of those kept, and adds the missing hashes. No hash is added if the first feature
/// has no id, or if less than half of the items up to the last feature of the run are features, so that at most
/// two are added for each feature.
fn keep_runs<T: Item>(kept: &mut Kept, items: &[T], runs: Runs)
    requires runs { AreRunsOf T.of_kind runs items.now }
    requires hashes { AreHashes T.id_hash kept.old.hashes items.now }
    ensures size { kept.new.size ≡ kept.old.size }
    ensures runs { IfSome kept.new.runs (λ runs. AreRunsOf T.of_kind runs items.now) }
    ensures hashes { AreHashes T.id_hash kept.new.hashes items.now }
{
    kept.set_runs(runs);
    let Run { first, count, .. } = runs.messages;
    if first <= count && begins_with_id(items, first) {
        kept.add_hashes(items, first.saturating_add(count));
    }
}

/// Whether the item at this position has an id. Usually all features of a layer have one, or none does.
fn begins_with_id<T: Item>(items: &[T], first: usize) -> bool
    ensures { IsTrue result ↔ IsSomeAnd (slice_get items.now first) (λ item. IsTrue (T.has_id item)) }
{
    match items.get(first) {
        Some(item) => item.has_id(),
        None => false,
    }
}
