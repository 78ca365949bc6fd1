//! A stack from which items are taken, and put back without memory.

ghost use Rattle.std.specs.Prelude.{◌≡◌, ◌<◌, ◌≤◌, ◌↔◌, [], IsTrue, IfOk, OnOk, OnErr, length, slice_get, option_map, reverse, Some, None};
ghost use Rattle.om_memory.specs.Tapes.{pushed, unpushed, lowered, raised, swapped_down, swapped_up, exchanged};

use om_seq::AllocResult;
use std::marker::Model;
use std::mem;

/// A stack of items. What is taken from it stays above its top until something is pushed over it.
///
/// Contracts see the items from the top down, and those that were taken, the nearest first. The
/// room of its vector is no part of that: a way back changes the height, or puts one item where it
/// was.
#[derive(Drop)]
pub struct Tape<T> {
    slots: Vec<T>,
    height: usize,
}

impl<T> Model for Tape<T> {
    ghost use Rattle.std.specs.Prelude.{◌≤◌, length};
    ghost use Rattle.om_memory.specs.Tapes.{TapeView, tape_at};

    ghost Value = { TapeView T };

    ghost view = { λ p. tape_at p.height p.slots.items };

    ghost invariant = { λ p. p.height ≤ length p.slots.items };
}

impl<T> Tape<T> {
    /// The tape of a vector's items, the last one on top. It takes no memory.
    pub fn of(items: Vec<T>) -> Tape<T>
        ensures { result ≡ record { items = reverse items.items; taken = [] } }
    {
        Tape {
            height: items.len(),
            slots: items,
        }
    }

    /// How many items stand.
    pub fn len(&self) -> usize
        ensures { result ≡ length self.now.items }
    {
        self.height
    }

    /// Whether none stands.
    pub fn is_empty(&self) -> bool
        ensures { IsTrue result ↔ (self.now.items ≡ []) }
    {
        self.as_slice().is_empty()
    }

    /// The item that stands at this depth, the top one at 0; `None` exactly where there is none.
    pub fn get(&self, depth: usize) -> Option<&T>
        ensures { option_map (λ t. t.now) result ≡ slice_get self.now.items depth }
    {
        let items = self.as_slice();
        if depth >= items.len() {
            return None;
        }
        items.get(items.len() - 1 - depth)
    }

    /// The items that stand, the top one last.
    pub fn as_slice(&self) -> &[T]
        ensures { reverse result.now ≡ self.now.items }
    {
        &self.slots[..self.height]
    }

    /// Pushes an item, and answers the taken one that it lies over, if any. When out of
    /// memory, nothing changes.
    pub fn push(&mut self, item: T) -> AllocResult<Option<T>>
    where
        T: Drop,
        ensures over { IfOk result (λ over. over ≡ slice_get self.old.taken 0) }
        ensures pushed { OnOk result (self.new ≡ pushed item self.old) }
        ensures unchanged_on_error { OnErr result (self.new ≡ self.old) }
    {
        if self.height < self.slots.len() {
            let over = mem::replace(&mut self.slots[self.height], item);
            self.height += 1;
            Ok(Some(over))
        } else {
            self.slots.push(item)?;
            self.height += 1;
            Ok(None)
        }
    }

    /// Takes a push back, by what it answered. It takes no memory.
    pub fn unpush(&mut self, over: Option<T>)
    where
        T: Drop,
        requires pushed { 0 < length self.old.items }
        requires grown { over ≡ None → self.old.taken ≡ [] }
        ensures { self.new ≡ unpushed over self.old }
    {
        self.height -= 1;
        match over {
            Some(item) => self.slots[self.height] = item,
            None => self.slots.truncate(self.height),
        }
    }

    /// Takes items from the top. They stay above it.
    pub fn lower(&mut self, count: usize)
        requires { count ≤ length self.old.items }
        ensures { self.new ≡ lowered count self.old }
    {
        self.height -= count;
    }

    /// Puts back items that were taken.
    pub fn raise(&mut self, count: usize)
        requires { count ≤ length self.old.taken }
        ensures { self.new ≡ raised count self.old }
    {
        self.height += count;
    }

    /// Takes the top item in exchange for another one, which stays above the top.
    pub fn swap_down(&mut self, item: &mut T)
        requires { 0 < length self.old.items }
        ensures top { Some item.new ≡ slice_get self.old.items 0 }
        ensures swapped { self.new ≡ swapped_down item.old self.old }
    {
        self.height -= 1;
        mem::swap(&mut self.slots[self.height], item);
    }

    /// Puts an item back on the top in exchange for the nearest one that was taken.
    pub fn swap_up(&mut self, item: &mut T)
        requires { 0 < length self.old.taken }
        ensures nearest { Some item.new ≡ slice_get self.old.taken 0 }
        ensures swapped { self.new ≡ swapped_up item.old self.old }
    {
        mem::swap(&mut self.slots[self.height], item);
        self.height += 1;
    }

    /// Takes the top item in exchange for another one, which lies on top in its place. It takes no
    /// memory.
    pub fn swap_top(&mut self, item: &mut T)
        requires { 0 < length self.old.items }
        ensures top { Some item.new ≡ slice_get self.old.items 0 }
        ensures exchanged { self.new ≡ exchanged item.old self.old }
    {
        mem::swap(&mut self.slots[self.height - 1], item);
    }

    /// Pushes the item that runs and has another one run, and answers the taken one that it lies
    /// over, if any. When out of memory, nothing changes.
    pub fn push_under(&mut self, next: T, running: &mut T) -> AllocResult<Option<T>>
    where
        T: Drop,
        ensures over { IfOk result (λ over. over ≡ slice_get self.old.taken 0) }
        ensures pushed { OnOk result (self.new ≡ pushed running.old self.old) }
        ensures running { OnOk result (running.new ≡ next) }
        ensures unchanged_on_error { OnErr result (self.new ≡ self.old) }
        ensures running_on_error { OnErr result (running.new ≡ running.old) }
    {
        let over = self.push(next)?;
        self.swap_top(running);
        Ok(over)
    }

    /// Takes such a push back, by what it answered. It takes no memory.
    pub fn unpush_under(&mut self, over: Option<T>, running: &mut T)
    where
        T: Drop,
        requires pushed { 0 < length self.old.items }
        requires grown { over ≡ None → self.old.taken ≡ [] }
        ensures running { Some running.new ≡ slice_get self.old.items 0 }
        ensures unpushed { self.new ≡ unpushed over self.old }
    {
        self.swap_top(running);
        self.unpush(over);
    }
}
