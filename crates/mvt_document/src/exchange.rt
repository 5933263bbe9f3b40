//! Items that change places between two vectors, and an item that moves within one, without
//! copying.

ghost use Rattle.std.specs.Prelude.{◌≡◌, ◌+◌, ◌-◌, ◌<◌, ◌≤◌, ◌++◌, length, take, drop, reverse, vec_len, vec_capacity, is_ok, if◌then◌else◌, OnOk, IsOk};
ghost use Rattle.mvt_document.specs.Splicing.{moved, part, splice};

use std::alloc::AllocError;

/// Exchanges `taken` items of the list from `index` for the ones to put. An `Err` changes nothing.
pub(crate) fn exchange<T>(
    list: &mut Vec<T>,
    index: usize,
    taken: usize,
    put: &mut Vec<T>,
) -> Result<(), AllocError>
    requires { index + taken ≤ vec_len list.old }
    ensures list { list.new.items ≡ (if is_ok result then splice index taken put.old.items list.old.items else list.old.items) }
    ensures put { put.new.items ≡ (if is_ok result then part index taken list.old.items else put.old.items) }
    ensures list_room { vec_capacity list.old ≤ vec_capacity list.new }
    ensures put_room { vec_capacity put.old ≤ vec_capacity put.new }
    ensures succeeds { vec_len list.old + vec_len put.old ≤ vec_capacity list.old + taken → taken ≤ vec_capacity put.old → IsOk result }
{
    let given = put.len();
    list.reserve(given.saturating_sub(taken))?;
    put.reserve_exact(taken.saturating_sub(given))?;
    let common = given.min(taken);
    swap_part(list.as_mut_slice(), index, put.as_mut_slice(), common);
    if taken < given {
        insert_tail(list, index + taken, put, taken);
    } else {
        remove_part(list, index + given, taken - given, put);
    }
    Ok(())
}

/// The items of `put` after the first `kept` go into the list, at `index`. It has room for them.
fn insert_tail<T>(list: &mut Vec<T>, index: usize, put: &mut Vec<T>, kept: usize)
    requires within { index ≤ vec_len list.old }
    requires there { kept ≤ vec_len put.old }
    requires room { vec_len list.old + (vec_len put.old - kept) ≤ vec_capacity list.old }
    ensures list { list.new.items ≡ splice index 0 (drop kept put.old.items) list.old.items }
    ensures put { put.new.items ≡ take kept put.old.items }
    ensures list_room { vec_capacity list.new ≡ vec_capacity list.old }
    ensures put_room { vec_capacity put.new ≡ vec_capacity put.old }
{
    let rest = list.len() - index;
    move_tail(put, list, kept);
    turn_rest(list.as_mut_slice(), index, rest);
}

/// `count` items of the list from `index` go after those of `to`, which has room for them.
fn remove_part<T>(list: &mut Vec<T>, index: usize, count: usize, to: &mut Vec<T>)
    requires within { index + count ≤ vec_len list.old }
    requires room { vec_len to.old + count ≤ vec_capacity to.old }
    ensures list { list.new.items ≡ take index list.old.items ++ drop (index + count) list.old.items }
    ensures to { to.new.items ≡ to.old.items ++ part index count list.old.items }
    ensures list_room { vec_capacity list.new ≡ vec_capacity list.old }
    ensures to_room { vec_capacity to.new ≡ vec_capacity to.old }
{
    turn_rest(list.as_mut_slice(), index, count);
    let left = list.len() - count;
    move_tail(list, to, left);
}

/// The items after the first `left` go to the end of another list, which has room for them.
fn move_tail<T>(from: &mut Vec<T>, to: &mut Vec<T>, left: usize)
    requires there { left ≤ vec_len from.old }
    requires room { vec_len to.old + (vec_len from.old - left) ≤ vec_capacity to.old }
    ensures from { from.new.items ≡ take left from.old.items }
    ensures to { to.new.items ≡ to.old.items ++ drop left from.old.items }
    ensures from_room { vec_capacity from.new ≡ vec_capacity from.old }
    ensures to_room { vec_capacity to.new ≡ vec_capacity to.old }
{
    let start = to.len();
    while left < from.len() {
        to.push_reserved(from.take_last());
    }
    reverse_rest(to.as_mut_slice(), start);
}

/// `count` items from `index` move after all others.
fn turn_rest<T>(items: &mut [T], index: usize, count: usize)
    requires { index + count ≤ length items.old }
    ensures { items.new ≡ take index items.old ++ (drop (index + count) items.old ++ part index count items.old) }
{
    items[index..].rotate_left(count);
}

fn reverse_rest<T>(items: &mut [T], index: usize)
    requires { index ≤ length items.old }
    ensures { items.new ≡ take index items.old ++ reverse (drop index items.old) }
{
    items[index..].reverse();
}

/// `count` items from `index` change places with the first `count` of another list.
fn swap_part<T>(items: &mut [T], index: usize, other: &mut [T], count: usize)
    requires within { index + count ≤ length items.old }
    requires there { count ≤ length other.old }
    ensures items { items.new ≡ splice index count (take count other.old) items.old }
    ensures other { other.new ≡ part index count items.old ++ drop count other.old }
{
    items[index..index + count].swap_with_slice(&mut other[..count]);
}

/// The item at one position moves to another.
pub(crate) fn move_item<T>(items: &mut [T], from: usize, to: usize)
    requires there { from < length items.old }
    requires within { to < length items.old }
    ensures { items.new ≡ moved from to items.old }
{
    if from <= to {
        items[from..to + 1].rotate_left(1);
    } else {
        items[to..from + 1].rotate_right(1);
    }
}
