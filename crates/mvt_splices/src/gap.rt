//! A list that is open at a gap: a ring that begins after the gap and ends before it.

ghost use Rattle.std.specs.Prelude.{◌≡◌, ◌+◌, ◌-◌, ◌<◌, ◌≤◌, ◌↔◌, [], ◌++◌, length, take, drop, vec_len, vec_capacity, OnOk, IsTrue, option_to_list};
ghost use Rattle.std.specs.VecDeque.{deque_len, deque_capacity};
ghost use Rattle.mvt_document.specs.Splicing.{part, splice};
ghost use Rattle.mvt_document.specs.Lending.{held_in};

use mvt_document::Put;
use std::alloc::{AllocError, Global};
use std::collections::VecDeque;
use std::marker::Model;
use std::mem;

/// The most items that a ring rotates one by one: for more, rotating it at once is cheaper.
const FEW: usize = 4;

/// A list that is open at a gap, in a ring: first what is after the gap, then what is before it. The gap goes
/// to where a part is exchanged, so exchanges in order of their indexes move each item once, and down again once
/// or twice, in the list's own memory. Contracts see the whole list, and also the room for more.
pub struct Gap<T> {
    ring: VecDeque<T>,
    following: usize,
}

impl<T> Model for Gap<T> {
    ghost use Rattle.std.specs.Prelude.{◌-◌, ◌≤◌, ◌++◌, take, drop};
    ghost use Rattle.std.specs.VecDeque.{deque_len, deque_capacity};
    ghost use Rattle.mvt_document.specs.Held.{Held};

    ghost Value = { Held T };

    ghost view = { λ g. record { items = drop g.following g.ring.items ++ take g.following g.ring.items; room = deque_capacity g.ring - deque_len g.ring } };

    ghost invariant = { λ g. (g.following ≤ deque_len g.ring) × (deque_len g.ring ≤ deque_capacity g.ring) };
}

impl<T> Gap<T> {
    /// Opens the list of a vector, which is empty until the gap is closed. The list stays in the vector's
    /// memory.
    pub fn open(alloc: Global, list: &mut Vec<T>) -> Gap<T>
        ensures gap { result ≡ held_in list.old }
        ensures empty { list.new.items ≡ [] }
    {
        let list = mem::replace(list, Vec::new(alloc));
        Gap {
            ring: VecDeque::from_vec(list),
            following: 0,
        }
    }

    /// Makes room for `more` items.
    pub fn reserve(&mut self, more: usize) -> Result<(), AllocError>
        ensures items { self.new.items ≡ self.old.items }
        ensures room { self.old.room ≤ self.new.room }
        ensures ok { OnOk result (more ≤ self.new.room) }
    {
        self.ring.reserve(more)
    }

    /// Exchanges `taken` items from `index` for the ones to put, and the list of those to put gets
    /// the taken ones in turn.
    pub fn exchange(&mut self, index: usize, taken: usize, put: &mut Put<T>)
    where
        T: Drop,
        requires there { index + taken ≤ length self.old.items }
        requires room { length put.old.items ≤ self.old.room + taken }
        requires put_room { taken ≤ length put.old.items + put.old.room }
        ensures items { self.new.items ≡ splice index taken put.old.items self.old.items }
        ensures put { put.new.items ≡ part index taken self.old.items }
        ensures room { length self.new.items + self.new.room ≡ length self.old.items + self.old.room }
        ensures put_room { length put.new.items + put.new.room ≡ length put.old.items + put.old.room }
    {
        let goes_back = index < self.ring.len() - self.following;
        let following = self.ring.len() - index - taken;
        move_gap(&mut self.ring, self.following, index);
        if comes_first(goes_back, taken, put.len()) {
            put_first(&mut self.ring, put);
            self.following = following + 1;
        } else {
            exchange_first(&mut self.ring, taken, put);
            self.following = following;
        }
    }

    /// Closes the gap: the vector has the list again.
    pub fn close(self, list: &mut Vec<T>)
        requires { vec_len list.old ≡ 0 }
        ensures items { list.new.items ≡ self.items }
        ensures room { self.room ≤ (held_in list.new).room }
    {
        let Gap {
            mut ring,
            following,
        } = self;
        ring.rotate_left(following);
        mem::replace(list, ring.into_vec()).destroy_empty();
    }
}

/// Moves the gap of a list, with `following` items after it, to `index`: the items after it come
/// first.
fn move_gap<T>(ring: &mut VecDeque<T>, following: usize, index: usize)
    requires following { following ≤ deque_len ring.old }
    requires there { index ≤ deque_len ring.old }
    requires room { deque_len ring.old ≤ deque_capacity ring.old }
    ensures items { let items = drop following ring.old.items ++ take following ring.old.items in ring.new.items ≡ drop index items ++ take index items }
    ensures length { deque_len ring.new ≡ deque_len ring.old }
    ensures room { deque_capacity ring.new ≡ deque_capacity ring.old }
{
    let before = ring.len() - following;
    let count = if index <= before {
        following + index
    } else {
        index - before
    };
    turn(ring, count);
}

/// Moves the first `count` items to the end. Mostly that is one, or all but one, and that one is
/// moved on its own.
fn turn<T>(ring: &mut VecDeque<T>, count: usize)
    requires there { count ≤ deque_len ring.old }
    requires room { deque_len ring.old ≤ deque_capacity ring.old }
    ensures items { ring.new.items ≡ drop count ring.old.items ++ take count ring.old.items }
    ensures length { deque_len ring.new ≡ deque_len ring.old }
    ensures room { deque_capacity ring.new ≡ deque_capacity ring.old }
{
    let rest = ring.len() - count;
    if count <= FEW {
        turn_few(ring, count);
    } else if rest <= FEW {
        turn_few_back(ring, rest);
    } else {
        ring.rotate_left(count);
    }
}

/// The same, one item after the other.
fn turn_few<T>(ring: &mut VecDeque<T>, count: usize)
    requires there { count ≤ deque_len ring.old }
    requires room { deque_len ring.old ≤ deque_capacity ring.old }
    ensures items { ring.new.items ≡ drop count ring.old.items ++ take count ring.old.items }
    ensures length { deque_len ring.new ≡ deque_len ring.old }
    ensures room { deque_capacity ring.new ≡ deque_capacity ring.old }
{
    let mut left = count;
    while 0 < left {
        let Some(item) = ring.pop_front() else {
            unreachable!()
        };
        ring.push_back_reserved(item);
        left -= 1;
    }
}

/// Moves the last `count` items to the front, one after the other.
fn turn_few_back<T>(ring: &mut VecDeque<T>, count: usize)
    requires there { count ≤ deque_len ring.old }
    requires room { deque_len ring.old ≤ deque_capacity ring.old }
    ensures items { let first = deque_len ring.old - count in ring.new.items ≡ drop first ring.old.items ++ take first ring.old.items }
    ensures length { deque_len ring.new ≡ deque_len ring.old }
    ensures room { deque_capacity ring.new ≡ deque_capacity ring.old }
{
    let mut left = count;
    while 0 < left {
        let Some(item) = ring.pop_back() else {
            unreachable!()
        };
        ring.push_front_reserved(item);
        left -= 1;
    }
}

/// Whether the items to put come first: if the gap goes back, and one item comes and none goes, the gap need not pass
/// that item at the next exchange.
fn comes_first(goes_back: bool, taken: usize, given: usize) -> bool
    ensures { IsTrue result ↔ (IsTrue goes_back × (taken ≡ 0) × (given ≡ 1)) }
{
    goes_back && taken == 0 && given == 1
}

/// The one item to put comes first.
fn put_first<T: Drop>(ring: &mut VecDeque<T>, put: &mut Put<T>)
    requires one { length put.old.items ≡ 1 }
    requires room { deque_len ring.old < deque_capacity ring.old }
    ensures ring { ring.new.items ≡ put.old.items ++ ring.old.items }
    ensures put { put.new.items ≡ [] }
    ensures length { deque_len ring.new ≡ deque_len ring.old + 1 }
    ensures ring_room { deque_capacity ring.new ≡ deque_capacity ring.old }
    ensures put_room { length put.new.items + put.new.room ≡ length put.old.items + put.old.room }
{
    if let Some(item) = put.trade(None) {
        ring.push_front_reserved(item);
    }
}

/// The first `taken` items change places with the ones to put, which come last.
fn exchange_first<T: Drop>(ring: &mut VecDeque<T>, taken: usize, put: &mut Put<T>)
    requires there { taken ≤ deque_len ring.old }
    requires room { deque_len ring.old + length put.old.items ≤ deque_capacity ring.old + taken }
    requires put_room { taken ≤ length put.old.items + put.old.room }
    ensures ring { ring.new.items ≡ drop taken ring.old.items ++ put.old.items }
    ensures put { put.new.items ≡ take taken ring.old.items }
    ensures length { deque_len ring.new + taken ≡ deque_len ring.old + length put.old.items }
    ensures ring_room { deque_capacity ring.new ≡ deque_capacity ring.old }
    ensures put_room { length put.new.items + put.new.room ≡ length put.old.items + put.old.room }
{
    if taken <= 1 && put.len() <= 1 {
        return exchange_one(ring, taken, put);
    }
    let mut items = put.take_vec();
    exchange_many(ring, taken, &mut items);
    *put = Put::from_vec(items);
}

/// The same, if at most one item goes, and at most one comes.
fn exchange_one<T: Drop>(ring: &mut VecDeque<T>, taken: usize, put: &mut Put<T>)
    requires few { taken ≤ 1 }
    requires few_put { length put.old.items ≤ 1 }
    requires there { taken ≤ deque_len ring.old }
    requires room { deque_len ring.old + length put.old.items ≤ deque_capacity ring.old + taken }
    requires put_room { taken ≤ length put.old.items + put.old.room }
    ensures ring { ring.new.items ≡ drop taken ring.old.items ++ put.old.items }
    ensures put { put.new.items ≡ take taken ring.old.items }
    ensures length { deque_len ring.new + taken ≡ deque_len ring.old + length put.old.items }
    ensures ring_room { deque_capacity ring.new ≡ deque_capacity ring.old }
    ensures put_room { length put.new.items + put.new.room ≡ length put.old.items + put.old.room }
{
    let first = pop_few(ring, taken);
    if let Some(item) = put.trade(first) {
        ring.push_back_reserved(item);
    }
}

/// The same, if the ones to put are in a vector.
fn exchange_many<T>(ring: &mut VecDeque<T>, taken: usize, put: &mut Vec<T>)
    requires there { taken ≤ deque_len ring.old }
    requires room { deque_len ring.old + vec_len put.old ≤ deque_capacity ring.old + taken }
    requires put_room { taken ≤ vec_capacity put.old }
    ensures ring { ring.new.items ≡ drop taken ring.old.items ++ put.old.items }
    ensures put { put.new.items ≡ take taken ring.old.items }
    ensures length { deque_len ring.new + taken ≡ deque_len ring.old + vec_len put.old }
    ensures ring_room { deque_capacity ring.new ≡ deque_capacity ring.old }
    ensures put_room { vec_capacity put.new ≡ vec_capacity put.old }
{
    if put.is_empty() {
        return take_first(ring, taken, put);
    }
    if taken == 0 {
        return put_last(ring, put);
    }
    let none = Vec::new(*put.allocator());
    let mut queue = VecDeque::from_vec(mem::replace(put, none));
    let given = queue.len();
    let common = given.min(taken);
    trade(ring, &mut queue, common);
    pass_on(ring, &mut queue, taken - common);
    pass_on(&mut queue, ring, given - common);
    mem::replace(put, queue.into_vec()).destroy_empty();
}

/// Takes out the first item, or none.
#[inline(always)]
fn pop_few<T>(ring: &mut VecDeque<T>, count: usize) -> Option<T>
    requires few { count ≤ 1 }
    requires there { count ≤ deque_len ring.old }
    ensures items { option_to_list result ≡ take count ring.old.items }
    ensures ring { ring.new.items ≡ drop count ring.old.items }
    ensures length { deque_len ring.new + count ≡ deque_len ring.old }
    ensures room { deque_capacity ring.new ≡ deque_capacity ring.old }
{
    if count == 0 { None } else { ring.pop_front() }
}

/// Moves the first `count` items to the end of a vector that has room for them.
fn take_first<T>(ring: &mut VecDeque<T>, count: usize, to: &mut Vec<T>)
    requires there { count ≤ deque_len ring.old }
    requires room { vec_len to.old + count ≤ vec_capacity to.old }
    ensures ring { ring.new.items ≡ drop count ring.old.items }
    ensures to { to.new.items ≡ to.old.items ++ take count ring.old.items }
    ensures length { deque_len ring.new + count ≡ deque_len ring.old }
    ensures ring_room { deque_capacity ring.new ≡ deque_capacity ring.old }
    ensures to_room { vec_capacity to.new ≡ vec_capacity to.old }
{
    let mut left = count;
    while 0 < left {
        let Some(item) = ring.pop_front() else {
            unreachable!()
        };
        to.push_reserved(item);
        left -= 1;
    }
}

/// The items to put come last.
fn put_last<T>(ring: &mut VecDeque<T>, put: &mut Vec<T>)
    requires { deque_len ring.old + vec_len put.old ≤ deque_capacity ring.old }
    ensures ring { ring.new.items ≡ ring.old.items ++ put.old.items }
    ensures put { put.new.items ≡ [] }
    ensures length { deque_len ring.new ≡ deque_len ring.old + vec_len put.old }
    ensures ring_room { deque_capacity ring.new ≡ deque_capacity ring.old }
    ensures put_room { vec_capacity put.new ≡ vec_capacity put.old }
{
    put.reverse();
    while !put.is_empty() {
        ring.push_back_reserved(put.take_last());
    }
}

/// Moves the first `count` items to the end of another ring that has room for them.
fn pass_on<T>(ring: &mut VecDeque<T>, to: &mut VecDeque<T>, count: usize)
    requires there { count ≤ deque_len ring.old }
    requires room { deque_len to.old + count ≤ deque_capacity to.old }
    ensures ring { ring.new.items ≡ drop count ring.old.items }
    ensures to { to.new.items ≡ to.old.items ++ take count ring.old.items }
    ensures length { deque_len ring.new + count ≡ deque_len ring.old }
    ensures to_length { deque_len to.new ≡ deque_len to.old + count }
    ensures ring_room { deque_capacity ring.new ≡ deque_capacity ring.old }
    ensures to_room { deque_capacity to.new ≡ deque_capacity to.old }
{
    let mut left = count;
    while 0 < left {
        let Some(item) = ring.pop_front() else {
            unreachable!()
        };
        to.push_back_reserved(item);
        left -= 1;
    }
}

/// Moves the first `count` items of each ring to the end of the other.
fn trade<T>(ring: &mut VecDeque<T>, other: &mut VecDeque<T>, count: usize)
    requires there { count ≤ deque_len ring.old }
    requires here { count ≤ deque_len other.old }
    requires room { deque_len ring.old ≤ deque_capacity ring.old }
    requires other_room { deque_len other.old ≤ deque_capacity other.old }
    ensures ring { ring.new.items ≡ drop count ring.old.items ++ take count other.old.items }
    ensures other { other.new.items ≡ drop count other.old.items ++ take count ring.old.items }
    ensures length { deque_len ring.new ≡ deque_len ring.old }
    ensures other_length { deque_len other.new ≡ deque_len other.old }
    ensures ring_room { deque_capacity ring.new ≡ deque_capacity ring.old }
    ensures other_room { deque_capacity other.new ≡ deque_capacity other.old }
{
    let mut left = count;
    while 0 < left {
        let Some(item) = ring.pop_front() else {
            unreachable!()
        };
        let Some(new) = other.pop_front() else {
            unreachable!()
        };
        ring.push_back_reserved(new);
        other.push_back_reserved(item);
        left -= 1;
    }
}
