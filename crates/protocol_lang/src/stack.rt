//! Stacks of a fixed size.
ghost use Rattle.std.specs.Prelude.{◌≡◌, []};
ghost use Rattle.protocol_lang.specs.Stacks.{pushed, top_of, below_top, is_full, is_empty};

use arrayvec::ArrayVec;
use std::marker::Model;

/// A stack of at most `MOST` elements. Contracts see them from the last one down.
#[derive(Drop)]
pub struct Stack<T: Copy + Default, const MOST: usize> {
    elements: ArrayVec<T, MOST>,
}

impl<T: Copy + Default, const MOST: usize> Model for Stack<T, MOST> {
    ghost use Rattle.std.specs.Prelude.{List, reverse};

    ghost Value = { List T };

    ghost view = { λ stack. reverse stack.elements.items };
}

impl<T: Copy + Default, const MOST: usize> Stack<T, MOST> {
    /// An empty stack.
    pub(crate) fn new() -> Self
        ensures { result ≡ [] }
    {
        Stack {
            elements: ArrayVec::new(),
        }
    }

    /// Puts an element on top, or does nothing if the stack is full.
    pub(crate) fn push(&mut self, element: T)
        ensures { self.new ≡ pushed MOST element self.old }
    {
        if !self.elements.is_full() {
            self.elements.push(element);
        }
    }

    /// Whether there is no room for one more.
    pub(crate) fn is_full(&self) -> bool
        ensures { result ≡ is_full MOST self.now }
    {
        self.elements.is_full()
    }

    pub(crate) fn is_empty(&self) -> bool
        ensures { result ≡ is_empty self.now }
    {
        self.elements.is_empty()
    }

    /// Takes the top element away, if there is one.
    pub(crate) fn pop(&mut self) -> Option<T>
        ensures result { result ≡ top_of self.old }
        ensures rest { self.new ≡ below_top self.old }
    {
        self.elements.pop()
    }
}
