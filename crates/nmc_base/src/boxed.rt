//! A value in memory of its own.

ghost use Rattle.std.specs.Prelude.{◌≡◌, IfOk};

use crate::no_memory::NoMemory;
use std::alloc::Global;
use std::marker::Model;

/// A value in memory of its own. Contracts see the value.
#[derive(Drop)]
pub struct Boxed<T> {
    held: Box<T>,
}

impl<T> Model for Boxed<T> {
    ghost Value = { T };

    ghost view = { λ b. b.held.value };
}

impl<T> Boxed<T> {
    /// The value, in memory that this takes.
    pub fn new(alloc: Global, value: T) -> Result<Boxed<T>, NoMemory>
    where
        T: Drop,
        ensures { IfOk result (λ b. b ≡ value) }
    {
        let held = Box::new(alloc, value)?;
        Ok(Boxed { held })
    }

    /// The value.
    pub fn as_ref(&self) -> &T
        ensures { result.now ≡ self.now }
    {
        self.held.as_ref()
    }

    /// The other value, in the memory of this one, which is dropped.
    pub fn replaced(self, other: T) -> Boxed<T>
    where
        T: Drop,
        ensures { result ≡ other }
    {
        let mut held = self.held;
        drop(Box::replace(&mut held, other));
        Boxed { held }
    }

    /// The value; its memory is given back.
    pub fn into_inner(self) -> T
        ensures { result ≡ self }
    {
        Box::into_inner(self.held)
    }
}
