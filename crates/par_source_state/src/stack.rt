ghost use Rattle.std.specs.Prelude.{◌≡◌, [], ◌∷◌, length, take, drop, reverse, slice_get};
ghost use Rattle.std.specs.Prelude.{MatchOption, IfOk, OnOk};

use par_base::memory::NoMemory;
use std::alloc::Global;
use std::marker::Model;

/// Items of which the last pushed goes first. Contracts see them in that order.
#[derive(Drop)]
pub struct Stack<T> {
    items: Vec<T>,
}

impl<T> Model for Stack<T> {
    ghost use Rattle.std.specs.Prelude.{List as Items, reverse};

    ghost Value = { Items T };

    ghost view = { λ stack. reverse stack.items.items };
}

impl<T: Drop + Copy> Stack<T> {
    /// No item.
    pub fn new(alloc: Global) -> Stack<T>
        ensures { result ≡ [] }
    {
        Stack {
            items: Vec::new(alloc),
        }
    }

    /// Puts an item before the others.
    pub fn push(&mut self, item: T) -> Result<(), NoMemory>
        ensures { OnOk result (self.new ≡ item ∷ self.old) }
    {
        self.items.push(item)?;
        Ok(())
    }

    /// Takes the first item.
    pub fn pop(&mut self) -> Option<T>
        ensures { MatchOption result (self.old ≡ []) (λ item. self.old ≡ item ∷ self.new) }
    {
        self.items.pop()
    }

    /// The first items, so many, in the order of their pushing.
    pub fn last(&self, count: usize) -> &[T]
        ensures { result.now ≡ reverse (take count self.now) }
    {
        let items = self.items.as_slice();
        &items[items.len().saturating_sub(count)..]
    }

    /// Drops the first items, so many.
    pub fn cut(&mut self, count: usize)
        ensures { self.new ≡ drop count self.old }
    {
        self.items.truncate(self.items.len().saturating_sub(count));
    }
}
