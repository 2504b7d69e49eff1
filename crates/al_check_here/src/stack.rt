// A stack of what encloses a place, the innermost item last.
ghost use Rattle.std.specs.Prelude.{◌≡◌, [], ◌∷◌, ◌++◌, is_ok, length, if◌then◌else◌};
ghost use Rattle.std.specs.Option.{option_copied};
ghost use Rattle.al_check_here.specs.Stacks.{innermost, without_innermost};

use std::alloc::{AllocError, Global};
use std::marker::Model;

/// A stack of what encloses a place, outermost first. Its model is the list of its items.
pub struct Stack<T> {
    items: Vec<T>,
}

impl<T: Drop> Drop for Stack<T> {
    fn drop(self) {
        let Stack { items: _ } = self;
    }
}

impl<T> Model for Stack<T> {
    ghost use Rattle.std.specs.Prelude.{List};

    ghost Value = { List T };

    ghost view = { λ s. s.items.items };
}

impl<T: Drop> Stack<T> {
    /// An empty stack. It takes no memory.
    pub fn empty(alloc: Global) -> Self
        ensures { result ≡ [] }
    {
        Stack {
            items: Vec::new(alloc),
        }
    }

    /// Pushes an item, which is then the innermost.
    ///
    /// # Errors
    /// `AllocError` if the allocator refuses memory; the stack is then as before.
    pub fn push(&mut self, item: T) -> Result<(), AllocError>
        ensures { self.new ≡ (if is_ok result then self.old ++ item ∷ [] else self.old) }
    {
        self.items.push(item)?;
        Ok(())
    }

    /// Pops the innermost item, if there is one.
    pub fn pop(&mut self) -> Option<T>
        ensures left { self.new ≡ without_innermost self.old }
        ensures item { result ≡ innermost self.old }
    {
        self.items.pop()
    }

    /// The innermost item, if there is one.
    pub fn innermost(&self) -> Option<&T>
        ensures { option_copied result ≡ innermost self.now }
    {
        self.items.last()
    }

    /// The number of items.
    pub fn len(&self) -> usize
        ensures { result ≡ length self.now }
    {
        self.items.len()
    }
}
