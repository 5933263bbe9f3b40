//! The items that change places with a part of a list. A single one usually takes no memory of its own.

ghost use Rattle.std.specs.Prelude.{◌≡◌, ◌≤◌, ◌<◌, ◌∷◌, [], length, option_to_list, vec_len, vec_capacity};
ghost use Rattle.mvt_document.specs.Splicing.{part, splice};

use crate::exchange::exchange;
use std::alloc::{AllocError, Global};
use std::marker::Model;
use std::{fmt, mem};

/// How the items are held: one in the value itself, more in a vector.
#[derive(Drop)]
enum Form<T> {
    Empty,
    One([T; 1]),
    Many(Vec<T>),
}

impl<T: Drop> Form<T> {
    ghost use Rattle.mvt_document.specs.PutForms.{held_form};

    /// The item that is held in the value itself, if one is.
    fn into_one(self) -> Option<T>
        requires { length (held_form self).items ≤ 1 }
        ensures { option_to_list result ≡ (held_form self).items }
    {
        match self {
            Form::Empty => None,
            Form::One([item]) => Some(item),
            Form::Many(mut items) => items.pop(),
        }
    }
}

/// The items to put in a list, or those that were taken out of it. Usually there is one, which is held in the
/// value itself. Contracts see the items and the room for more; the items are what is printed.
#[derive(Drop)]
pub struct Put<T> {
    alloc: Global,
    form: Form<T>,
}

impl<T> Model for Put<T> {
    ghost use Rattle.mvt_document.specs.Held.{Held};
    ghost use Rattle.mvt_document.specs.PutForms.{HoldsOne, held_form};

    ghost Value = { Held T };

    ghost view = { λ p. held_form p.form };

    ghost invariant = { λ p. HoldsOne p.form };
}

impl<T: fmt::Debug> fmt::Debug for Put<T> {
    fn fmt<W: fmt::Write>(&self, f: &mut fmt::Formatter<W>) -> fmt::Result {
        f.debug_list().entries(self.as_slice()).finish()
    }
}

impl<T> Put<T> {
    ghost use Rattle.std.specs.Prelude.{◌+◌, max};

    /// No items.
    pub fn new(alloc: Global) -> Self
        ensures items { result.items ≡ [] }
        ensures room { result.room ≡ 1 }
    {
        Put {
            alloc,
            form: Form::Empty,
        }
    }

    /// The items of a vector, in the vector's own memory, if it has any.
    pub fn from_vec(items: Vec<T>) -> Self
        ensures items { result.items ≡ items.items }
        ensures room { length result.items + result.room ≡ max 1 (vec_capacity items) }
    {
        let alloc = *items.allocator();
        if items.capacity() == 0 {
            items.destroy_empty();
            return Put::new(alloc);
        }
        Put {
            alloc,
            form: Form::Many(items),
        }
    }

    pub fn as_slice(&self) -> &[T]
        ensures { result.now ≡ self.now.items }
    {
        match &self.form {
            Form::Empty => &[],
            Form::One(item) => item.as_slice(),
            Form::Many(items) => items.as_slice(),
        }
    }

    pub fn len(&self) -> usize
        ensures { result ≡ length self.now.items }
    {
        self.as_slice().len()
    }
}

impl<T: Drop> Put<T> {
    ghost use Rattle.std.specs.Prelude.{◌+◌, max, is_ok, if◌then◌else◌, IfOk, IsOk, OnErr, OnOk};

    /// This item alone.
    pub fn of_one(alloc: Global, item: T) -> Self
        ensures items { result.items ≡ item ∷ [] }
        ensures room { result.room ≡ 0 }
    {
        Put {
            alloc,
            form: Form::One([item]),
        }
    }

    /// The vector that the items are in, if there is room for more than one. None are left.
    pub fn take_vec(&mut self) -> Vec<T>
        requires { 1 < length self.old.items + self.old.room }
        ensures items { result.items ≡ self.old.items }
        ensures room { vec_capacity result ≡ length self.old.items + self.old.room }
        ensures left { self.new.items ≡ [] }
        ensures left_room { self.new.room ≡ 1 }
    {
        match mem::replace(&mut self.form, Form::Empty) {
            Form::Many(items) => items,
            _ => unreachable!(),
        }
    }

    /// Another item, or none, in place of the one that is there, if any is.
    pub fn trade(&mut self, item: Option<T>) -> Option<T>
        requires few { length self.old.items ≤ 1 }
        requires room { length (option_to_list item) ≤ length self.old.items + self.old.room }
        ensures items { self.new.items ≡ option_to_list item }
        ensures old { option_to_list result ≡ self.old.items }
        ensures room { length self.new.items + self.new.room ≡ length self.old.items + self.old.room }
    {
        if let Form::Many(items) = &mut self.form {
            return trade_last(items, item);
        }
        let form = match item {
            Some(item) => Form::One([item]),
            None => Form::Empty,
        };
        mem::replace(&mut self.form, form).into_one()
    }

    /// The item, if there is one, in a vector with room for `more` items besides. None is left. An
    /// `Err` changes nothing.
    fn take_roomy(&mut self, more: usize) -> Result<Vec<T>, AllocError>
        requires { length self.old.items ≤ 1 }
        ensures items { IfOk result (λ items. items.items ≡ self.old.items) }
        ensures room { IfOk result (λ items. vec_capacity items ≡ length self.old.items + more) }
        ensures left { OnOk result (self.new.items ≡ []) }
        ensures err { OnErr result (self.new ≡ self.old) }
    {
        let whole = more.checked_add(self.len()).ok_or(AllocError)?;
        let mut items = Vec::with_capacity(self.alloc, whole)?;
        if let Some(item) = self.trade(None) {
            items.push_reserved(item);
        }
        Ok(items)
    }

    /// Makes room for `more` items, and for no more than those. An `Err` changes nothing.
    #[inline(always)]
    pub fn reserve_exact(&mut self, more: usize) -> Result<(), AllocError>
        ensures items { self.new.items ≡ self.old.items }
        ensures ok { OnOk result (self.new.room ≡ max self.old.room more) }
        ensures err { OnErr result (self.new.room ≡ self.old.room) }
        ensures succeeds { more ≤ self.old.room → IsOk result }
    {
        if let Form::Many(items) = &mut self.form {
            return items.reserve_exact(more);
        }
        // One item has its place in the form.
        if more > 1 - self.len() {
            self.form = Form::Many(self.take_roomy(more)?);
        }
        Ok(())
    }

    /// `taken` items of a vector from `index` change places with these. An `Err` changes nothing.
    pub(crate) fn exchange_in(
        &mut self,
        list: &mut Vec<T>,
        index: usize,
        taken: usize,
    ) -> Result<(), AllocError>
        requires { index + taken ≤ vec_len list.old }
        ensures list { list.new.items ≡ (if is_ok result then splice index taken self.old.items list.old.items else list.old.items) }
        ensures put { self.new.items ≡ (if is_ok result then part index taken list.old.items else self.old.items) }
        ensures list_room { vec_capacity list.old ≤ vec_capacity list.new }
        ensures put_room { length self.old.items + self.old.room ≤ length self.new.items + self.new.room }
        ensures succeeds { vec_len list.old + length self.old.items ≤ vec_capacity list.old + taken → taken ≤ length self.old.items + self.old.room → IsOk result }
    {
        self.reserve_exact(taken.saturating_sub(self.len()))?;
        match &mut self.form {
            Form::Empty if taken == 1 => {
                self.form = Form::One([list.remove(index)]);
                Ok(())
            }
            Form::One(item) if taken == 1 => {
                mem::swap(&mut item[0], &mut list[index]);
                Ok(())
            }
            Form::Empty | Form::One(_) => self.insert_in(list, index),
            Form::Many(items) => exchange(list, index, taken, items),
        }
    }

    /// The item, if there is one, goes into a vector at an index. An `Err` changes nothing.
    fn insert_in(&mut self, list: &mut Vec<T>, index: usize) -> Result<(), AllocError>
        requires few { length self.old.items ≤ 1 }
        requires there { index ≤ vec_len list.old }
        ensures list { list.new.items ≡ (if is_ok result then splice index 0 self.old.items list.old.items else list.old.items) }
        ensures put { self.new.items ≡ (if is_ok result then [] else self.old.items) }
        ensures list_room { vec_capacity list.old ≤ vec_capacity list.new }
        ensures put_room { length self.old.items + self.old.room ≡ length self.new.items + self.new.room }
        ensures succeeds { vec_len list.old + length self.old.items ≤ vec_capacity list.old → IsOk result }
    {
        list.reserve(self.len())?;
        if let Some(item) = self.trade(None) {
            list.insert(index, item)?;
        }
        Ok(())
    }
}

/// The last item of a vector that has at most one is replaced by another, or by none.
fn trade_last<T>(items: &mut Vec<T>, item: Option<T>) -> Option<T>
    requires few { vec_len items.old ≤ 1 }
    requires room { length (option_to_list item) ≤ vec_capacity items.old }
    ensures items { items.new.items ≡ option_to_list item }
    ensures old { option_to_list result ≡ items.old.items }
    ensures room { vec_capacity items.new ≡ vec_capacity items.old }
{
    let old = items.pop();
    if let Some(item) = item {
        items.push_reserved(item);
    }
    old
}
