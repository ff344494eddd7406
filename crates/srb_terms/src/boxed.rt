ghost use Rattle.std.specs.Prelude.{◌≡◌, IfOk, IfSome};

use crate::NoMemory;
use std::alloc::Global;
use std::marker::Model;
use std::sync::Arc;

/// A value on the heap, which a contract sees as the value itself, also inside a type that holds itself. Copies share the value.
#[derive(Debug, Drop)]
pub struct Boxed<T> {
    held: Arc<T>,
}

impl<T> Model for Boxed<T> {
    ghost Value = { T };

    ghost coded = { T.code };

    ghost view = { λ b. b.held.value };
}

impl<T> Boxed<T> {
    /// The value.
    pub fn get(&self) -> &T
        ensures { result.now ≡ self.now }
    {
        &self.held
    }

    /// Takes the value out, where no other copy shares it.
    pub fn into_inner(self) -> Option<T>
        ensures { IfSome result (λ value. value ≡ self) }
    {
        let Boxed { held } = self;
        Arc::into_inner(held)
    }
}

impl<T: Drop> Boxed<T> {
    /// Puts `value` on the heap. Without memory it is dropped.
    pub fn new(alloc: Global, value: T) -> Result<Boxed<T>, NoMemory>
        ensures { IfOk result (λ b. b ≡ value) }
    {
        Ok(Boxed {
            held: Arc::new(alloc, value)?,
        })
    }

    /// A copy that shares the value. It takes no memory, and fails only at 2^63 copies.
    pub fn copied(&self) -> Result<Boxed<T>, NoMemory>
        ensures { IfOk result (λ b. b ≡ self.now) }
    {
        Ok(Boxed {
            held: self.held.clone()?,
        })
    }
}
