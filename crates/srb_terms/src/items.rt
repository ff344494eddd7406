ghost use Rattle.std.specs.Prelude.{◌≡◌, [], ◌∷◌, ◌++◌, ◌<◌, ◌↔◌, length, take, slice_get, slice_set, IsTrue, IfOk, MatchOption, OnOk, OnErr};
ghost use Rattle.std.specs.Option.{option_copied};

use crate::NoMemory;
use std::alloc::Global;
use std::marker::Model;

/// A list, which a contract sees as the list of its elements, also inside a type that holds itself.
#[derive(Debug, Drop)]
pub struct Items<T> {
    elements: Vec<T>,
}

impl<T> Model for Items<T> {
    ghost use Rattle.std.specs.Prelude.{List};
    ghost use Rattle.std.specs.Coded.{coded_list};

    ghost Value = { List T };

    ghost coded = { coded_list T.code };

    ghost view = { λ it. it.elements.items };
}

impl<T> Items<T> {
    /// The empty list. It takes no memory.
    pub fn new(alloc: Global) -> Items<T>
        ensures { result ≡ [] }
    {
        Items {
            elements: Vec::new(alloc),
        }
    }

    /// The list of a vector's elements, without a copy.
    pub fn from_vec(elements: Vec<T>) -> Items<T>
        ensures { result ≡ elements.items }
    {
        Items { elements }
    }

    /// The vector of the elements, without a copy.
    pub fn into_vec(self) -> Vec<T>
        ensures { result.items ≡ self }
    {
        let Items { elements } = self;
        elements
    }

    /// The elements in order.
    pub fn as_slice(&self) -> &[T]
        ensures { result.now ≡ self.now }
    {
        self.elements.as_slice()
    }

    /// The number of elements.
    pub fn len(&self) -> usize
        ensures { result ≡ length self.now }
    {
        self.elements.len()
    }

    /// Whether there is no element.
    pub fn is_empty(&self) -> bool
        ensures { IsTrue result ↔ (self.now ≡ []) }
    {
        self.elements.is_empty()
    }

    /// The element at `index`, counted from 0. `None` exactly where the list is not that long.
    pub fn get(&self, index: usize) -> Option<&T>
        ensures { option_copied result ≡ slice_get self.now index }
    {
        self.elements.get(index)
    }

    /// Takes the last element out. `None` exactly where the list is empty.
    pub fn pop(&mut self) -> Option<T>
        ensures { MatchOption result ((self.old ≡ []) × (self.new ≡ [])) (λ last. self.old ≡ self.new ++ last ∷ []) }
    {
        self.elements.pop()
    }
}

impl<T: Drop> Items<T> {
    /// Adds `element` at the end. Without memory the list stays as it was, and the element is dropped.
    ///
    /// A list without room takes room for as many more as it has, at least for one: so a list of one element has room for no other.
    pub fn push(&mut self, element: T) -> Result<(), NoMemory>
        ensures ok { OnOk result (self.new ≡ self.old ++ element ∷ []) }
        ensures err { OnErr result (self.new ≡ self.old) }
    {
        let len = self.elements.len();
        if len == self.elements.capacity() {
            self.elements.reserve_exact(len.max(1))?;
        }
        self.elements.push(element)?;
        Ok(())
    }

    /// Adds the elements of `more` at the end. Without memory the list stays as it was, and they are dropped.
    pub fn append(&mut self, more: Items<T>) -> Result<(), NoMemory>
        ensures ok { OnOk result (self.new ≡ self.old ++ more) }
        ensures err { OnErr result (self.new ≡ self.old) }
    {
        let Items { mut elements } = more;
        self.elements.append(&mut elements)
    }

    /// Puts `element` in the place of the one at `index`, which is dropped.
    pub fn set(&mut self, index: usize, element: T)
        requires { index < length self.old }
        ensures { self.new ≡ slice_set self.old index element }
    {
        self.elements[index] = element;
    }

    /// Keeps the first `count` elements, and drops the others.
    pub fn truncate(&mut self, count: usize)
        ensures { self.new ≡ take count self.old }
    {
        self.elements.truncate(count);
    }
}

impl<T: Copy> Items<T> {
    /// A copy of `elements`.
    pub fn from_slice(alloc: Global, elements: &[T]) -> Result<Items<T>, NoMemory>
        ensures { IfOk result (λ it. it ≡ elements.now) }
    {
        Ok(Items {
            elements: Vec::from_slice(alloc, elements)?,
        })
    }
}
