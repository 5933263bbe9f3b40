//! The list type for bytes and for the fields of a feature, over a `Vec`.

ghost use Rattle.std.specs.Prelude.{◌≡◌, length};

use crate::exchange::move_item;
use crate::put::Put;
use std::alloc::{AllocError, AllocFailed};
use std::marker::Model;

/// A list over a `Vec`. Contracts see its items and its room.
#[derive(Debug, Drop)]
pub struct Items<T> {
    inner: Vec<T>,
}

impl<T> Model for Items<T> {
    ghost use Rattle.std.specs.Prelude.{◌-◌, vec_len, vec_capacity};
    ghost use Rattle.mvt_document.specs.Held.{Held};

    ghost Value = { Held T };

    ghost view = { λ l. record { items = l.inner.items; room = vec_capacity l.inner - vec_len l.inner } };
}

impl<T> Items<T> {
    ghost use Rattle.std.specs.Prelude.{reverse as reversed, ◌+◌, ◌<◌, ◌≤◌, max, ◌∷◌, [], ◌++◌, if◌then◌else◌, is_ok, IsOk, OnOk, OnErr, vec_len, vec_capacity};
    ghost use Rattle.mvt_document.specs.Splicing.{moved, part, splice};
    ghost use Rattle.std.specs.Borrow.{sem};
    ghost use Rattle.mvt_document.specs.Lending.{LendsVec, held_in};

    /// The list of a vector's items, in the vector's own memory.
    pub fn from_vec(inner: Vec<T>) -> Self
        ensures items { result.items ≡ inner.items }
        ensures room { length result.items + result.room ≡ vec_capacity inner }
    {
        Items { inner }
    }

    /// The items in a vector, in the list's own memory.
    pub fn into_vec(self) -> Vec<T>
        ensures items { result.items ≡ self.items }
        ensures room { vec_capacity result ≡ length self.items + self.room }
    {
        let Items { inner } = self;
        inner
    }

    pub fn as_slice(&self) -> &[T]
        ensures { result.now ≡ self.now.items }
    {
        self.inner.as_slice()
    }

    /// The vector that the items are in.
    pub fn as_vec_mut(&mut self) -> &mut Vec<T>
        ensures* writes_back { sem 𝓛 (LendsVec T.row self.entry result) }
        ensures value { held_in result.now ≡ self.old }
    {
        &mut self.inner
    }

    pub fn len(&self) -> usize
        ensures { result ≡ length self.now.items }
    {
        self.inner.len()
    }

    /// Makes room for `more` items, and for no more than those. An `Err` changes nothing.
    pub fn reserve_exact(&mut self, more: usize) -> Result<(), AllocError>
        ensures items { self.new.items ≡ self.old.items }
        ensures ok { OnOk result (self.new.room ≡ max self.old.room more) }
        ensures err { OnErr result (self.new.room ≡ self.old.room) }
        ensures succeeds { more ≤ self.old.room → IsOk result }
    {
        self.inner.reserve_exact(more)
    }

    /// Adds an item at the end. An `Err` changes nothing; it occurs only when the list has to grow.
    pub fn push(&mut self, item: T) -> Result<(), AllocFailed<T>>
        ensures items { self.new.items ≡ (if is_ok result then self.old.items ++ item ∷ [] else self.old.items) }
        ensures room { length self.old.items + self.old.room ≤ length self.new.items + self.new.room }
        ensures succeeds { 0 < self.old.room → IsOk result }
    {
        self.inner.push(item)
    }

    /// Exchanges `taken` items from `index` for the ones to put, whose place they take in turn. If
    /// as many are put as are taken, they change places where they are. If more or fewer are put,
    /// the items after them move, and one list or the other needs room. An `Err` changes nothing.
    pub fn exchange(
        &mut self,
        index: usize,
        taken: usize,
        put: &mut Put<T>,
    ) -> Result<(), AllocError>
    where
        T: Drop,
        requires { index + taken ≤ length self.old.items }
        ensures items { self.new.items ≡ (if is_ok result then splice index taken put.old.items self.old.items else self.old.items) }
        ensures put { put.new.items ≡ (if is_ok result then part index taken self.old.items else put.old.items) }
        ensures room { length self.old.items + self.old.room ≤ length self.new.items + self.new.room }
        ensures put_room { length put.old.items + put.old.room ≤ length put.new.items + put.new.room }
        ensures succeeds { length put.old.items ≤ self.old.room + taken → taken ≤ length put.old.items + put.old.room → IsOk result }
    {
        put.exchange_in(&mut self.inner, index, taken)
    }

    /// Takes the item at one position out and puts it back so that it is at the other.
    pub fn move_item(&mut self, from: usize, to: usize)
        requires there { from < length self.old.items }
        requires within { to < length self.old.items }
        ensures items { self.new.items ≡ moved from to self.old.items }
        ensures room { self.new.room ≡ self.old.room }
    {
        move_item(self.inner.as_mut_slice(), from, to);
    }

    /// Puts the items in the reverse order.
    pub fn reverse(&mut self)
        ensures items { self.new.items ≡ reversed self.old.items }
        ensures room { self.new.room ≡ self.old.room }
    {
        self.inner.reverse();
    }
}
