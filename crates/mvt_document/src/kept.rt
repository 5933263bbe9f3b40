//! What a message keeps beside its items: how many bytes they take and, in memory of their own, their runs
//! and the hashes of the ids of those at the front.

ghost use Rattle.std.specs.Prelude.{◌≡◌, ◌+◌, ◌<◌, ◌≤◌, [], List, Some, None, IfSome, is_some, length, slice_set, take};
ghost use Rattle.mvt_document.specs.Hashes.{AreHashes};
ghost use Rattle.mvt_document.specs.Splicing.{moved, splice};
ghost use Rattle.mvt_document.specs.KeptForms.{known_of};

use crate::exchange::{exchange, move_item};
use crate::item::Item;
use crate::run::Runs;
use std::alloc::Global;
use std::marker::Model;

/// What stands for a size that is not known.
const UNKNOWN: u32 = u32::MAX;

/// How many bytes the items of a list take, if that is known. Half a word is enough for every size
/// that a file can have; a greater one counts as not known.
#[derive(Clone, Copy)]
struct StoredSize {
    bytes: u32,
}

/// The runs of a list, and the hashes of the ids of the items at its front.
#[derive(Drop)]
struct Beside {
    runs: Runs,
    hashes: Vec<u32>,
}

/// A list of many items has runs and hashes too. One that never had many has none, since going through it is just
/// as fast, and no memory is asked for.
#[derive(Drop)]
enum Form {
    Size(StoredSize),
    WithRuns(StoredSize, Box<Beside>),
}

/// The size of a list, its runs and its hashes, in two words: the size is next to the tag of the form.
#[derive(Drop)]
pub(crate) struct Kept {
    form: Form,
}

impl Model for Kept {
    ghost use Rattle.mvt_document.specs.Kept.{Kept as TheKept};

    ghost Value = { TheKept };

    ghost use Rattle.mvt_document.specs.KeptForms.{hashes_in, size_in, runs_in};

    ghost view = { λ kept. record { size = size_in kept.form; runs = runs_in kept.form; hashes = hashes_in kept.form } };
}

impl StoredSize {
    fn new(size: Option<usize>) -> StoredSize
        ensures { IfSome (known_of result) (λ n. size ≡ Some n) }
    {
        let bytes = match size {
            Some(size) => u32::try_from(size).unwrap_or(UNKNOWN),
            None => UNKNOWN,
        };
        StoredSize { bytes }
    }

    fn get(self) -> Option<usize>
        ensures { result ≡ known_of self }
    {
        if self.bytes == UNKNOWN {
            return None;
        }
        Some(self.bytes as usize)
    }
}

impl Kept {
    /// What a list of few items keeps.
    pub(crate) fn of_size(size: usize) -> Kept
        ensures size { IfSome result.size (λ kept. kept ≡ size) }
        ensures runs { result.runs ≡ None }
        ensures hashes { result.hashes ≡ [] }
    {
        Kept {
            form: Form::Size(StoredSize::new(Some(size))),
        }
    }

    /// The size that is kept.
    pub(crate) fn size(&self) -> Option<usize>
        ensures { result ≡ self.now.size }
    {
        match &self.form {
            Form::Size(size) | Form::WithRuns(size, _) => size.get(),
        }
    }

    /// The runs that are kept.
    pub(crate) fn runs(&self) -> Option<Runs>
        ensures { result ≡ self.now.runs }
    {
        match &self.form {
            Form::Size(_) => None,
            Form::WithRuns(_, beside) => Some(beside.runs),
        }
    }

    /// The hashes that are kept, those of the items at the front.
    pub(crate) fn hashes(&self) -> &[u32]
        ensures { result.now ≡ self.now.hashes }
    {
        match &self.form {
            Form::Size(_) => &[],
            Form::WithRuns(_, beside) => beside.hashes.as_slice(),
        }
    }

    /// Whether runs are kept.
    pub(crate) fn has_runs(&self) -> bool
        ensures { result ≡ is_some self.now.runs }
    {
        matches!(&self.form, Form::WithRuns(..))
    }

    /// Keeps this size in place of the previous one.
    pub(crate) fn set_size(&mut self, size: Option<usize>)
        ensures size { IfSome self.new.size (λ kept. size ≡ Some kept) }
        ensures runs { self.new.runs ≡ self.old.runs }
        ensures hashes { self.new.hashes ≡ self.old.hashes }
    {
        let size = StoredSize::new(size);
        match &mut self.form {
            Form::Size(kept) => *kept = size,
            Form::WithRuns(kept, _) => *kept = size,
        }
    }

    /// Keeps these runs in place of those kept, if any are.
    pub(crate) fn set_runs(&mut self, runs: Runs)
        ensures size { self.new.size ≡ self.old.size }
        ensures runs { IfSome self.new.runs (λ kept. kept ≡ runs) }
        ensures hashes { self.new.hashes ≡ self.old.hashes }
    {
        if let Form::WithRuns(_, beside) = &mut self.form {
            beside.runs = runs;
        }
    }

    /// Keeps these runs, and no hashes yet, if there is memory for them.
    pub(crate) fn add_runs(&mut self, alloc: Global, runs: Runs)
        ensures size { self.new.size ≡ self.old.size }
        ensures runs { IfSome self.new.runs (λ kept. kept ≡ runs) }
        ensures hashes { self.new.hashes ≡ [] }
    {
        let size = match &self.form {
            Form::Size(size) | Form::WithRuns(size, _) => *size,
        };
        let hashes = Vec::new(alloc);
        self.form = match Box::new(alloc, Beside { runs, hashes }) {
            Ok(beside) => Form::WithRuns(size, beside),
            Err(_) => Form::Size(size),
        };
    }

    /// Keeps the hashes of the first `count` items, and no more.
    pub(crate) fn cut_hashes(&mut self, count: usize)
        ensures size { self.new.size ≡ self.old.size }
        ensures runs { self.new.runs ≡ self.old.runs }
        ensures hashes { self.new.hashes ≡ take count self.old.hashes }
    {
        if let Form::WithRuns(_, beside) = &mut self.form {
            beside.hashes.truncate(count);
        }
    }

    /// Keeps the hash of an item that takes the place of another, where that one's was kept.
    pub(crate) fn set_hash<T: Item>(&mut self, index: usize, item: &T)
        ensures size { self.new.size ≡ self.old.size }
        ensures runs { self.new.runs ≡ self.old.runs }
        ensures hashes { (items : List T) → AreHashes T.id_hash self.old.hashes items → AreHashes T.id_hash self.new.hashes (slice_set items index item.now) }
    {
        match item.id_hash() {
            Some(hash) => self.put_hash(index, hash),
            None => self.cut_hashes(index),
        }
    }

    /// Keeps this hash in place of the one at this index, where one is kept there.
    fn put_hash(&mut self, index: usize, hash: u32)
        ensures size { self.new.size ≡ self.old.size }
        ensures runs { self.new.runs ≡ self.old.runs }
        ensures hashes { self.new.hashes ≡ slice_set self.old.hashes index hash }
    {
        if let Form::WithRuns(_, beside) = &mut self.form {
            if let Some(kept) = beside.hashes.get_mut(index) {
                *kept = hash;
            }
        }
    }

    /// Keeps the hash of an item at the position to which it moves, where both positions have hashes.
    pub(crate) fn move_hash<T: Item>(&mut self, items: &[T], from: usize, to: usize)
        requires there { from < length items.now }
        requires within { to < length items.now }
        requires hashes { AreHashes T.id_hash self.old.hashes items.now }
        ensures size { self.new.size ≡ self.old.size }
        ensures runs { self.new.runs ≡ self.old.runs }
        ensures hashes { AreHashes T.id_hash self.new.hashes (moved from to items.now) }
    {
        let count = self.hashes().len();
        if from < count && to < count {
            self.turn_hashes(from, to);
        } else {
            self.cut_hashes(from.min(to));
        }
    }

    /// Keeps the hash at one index at another, where hashes are kept.
    fn turn_hashes(&mut self, from: usize, to: usize)
        requires there { from < length self.old.hashes }
        requires within { to < length self.old.hashes }
        ensures size { self.new.size ≡ self.old.size }
        ensures runs { self.new.runs ≡ self.old.runs }
        ensures hashes { self.new.hashes ≡ moved from to self.old.hashes }
    {
        if let Form::WithRuns(_, beside) = &mut self.form {
            move_item(beside.hashes.as_mut_slice(), from, to);
        }
    }

    /// Keeps the hashes once `taken` items from `index` are exchanged for others.
    pub(crate) fn exchange_hashes<T: Item>(&mut self, index: usize, taken: usize, come: &[T])
        ensures size { self.new.size ≡ self.old.size }
        ensures runs { self.new.runs ≡ self.old.runs }
        ensures hashes { (items : List T) → AreHashes T.id_hash self.old.hashes items → AreHashes T.id_hash self.new.hashes (splice index taken come.now items) }
    {
        let hashed = self.hashes().len();
        if index >= hashed || taken > hashed - index {
            self.cut_hashes(index);
        } else if let Form::WithRuns(_, beside) = &mut self.form {
            splice_hashes(&mut beside.hashes, index, taken, come);
        }
    }

    /// Keeps the hashes of the items before an index, if there is memory for them.
    pub(crate) fn add_hashes<T: Item>(&mut self, items: &[T], until: usize)
        requires { AreHashes T.id_hash self.old.hashes items.now }
        ensures size { self.new.size ≡ self.old.size }
        ensures runs { self.new.runs ≡ self.old.runs }
        ensures hashes { AreHashes T.id_hash self.new.hashes items.now }
    {
        if let Form::WithRuns(_, beside) = &mut self.form {
            push_hashes(&mut beside.hashes, items, until);
        }
    }
}

/// Adds the hashes of the items before an index to those of the items at the front, if there is memory for
/// them.
fn push_hashes<T: Item>(hashes: &mut Vec<u32>, items: &[T], until: usize)
    requires { AreHashes T.id_hash hashes.old.items items.now }
    ensures { AreHashes T.id_hash hashes.new.items items.now }
{
    let count = until.min(items.len());
    if hashes.reserve(count.saturating_sub(hashes.len())).is_err() {
        return;
    }
    for index in hashes.len()..count {
        let Some(hash) = items[index].id_hash() else {
            return;
        };
        if hashes.push(hash).is_err() {
            return;
        }
    }
}

/// Exchanges the hashes of `taken` items from `index` for those of others. If there is no memory
/// for that, those before `index` stay.
fn splice_hashes<T: Item>(hashes: &mut Vec<u32>, index: usize, taken: usize, come: &[T])
    requires { index + taken ≤ length hashes.old.items }
    ensures { (items : List T) → AreHashes T.id_hash hashes.old.items items → AreHashes T.id_hash hashes.new.items (splice index taken come.now items) }
{
    let mut put = Vec::new(*hashes.allocator());
    push_hashes(&mut put, come, come.len());
    if put.len() < come.len() {
        hashes.truncate(index);
        return;
    }
    if exchange(hashes, index, taken, &mut put).is_err() {
        hashes.truncate(index);
    }
}
