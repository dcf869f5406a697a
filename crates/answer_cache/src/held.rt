//! A text in memory of its own: what is moved of it is a pointer.

ghost use Rattle.std.specs.Prelude.{◌≡◌, ◌++◌, OnOk};

use nmc_base::{Bytes, NoMemory};
use std::alloc::Global;
use std::marker::Model;

/// A text in memory of its own. Contracts see its bytes.
#[derive(Drop)]
pub(crate) struct HeldText {
    held: Box<Bytes>,
}

impl Model for HeldText {
    ghost use Rattle.std.specs.Prelude.{List, ℕ};

    ghost Value = { List ℕ };

    ghost view = { λ t. t.held.value };
}

impl HeldText {
    /// No bytes.
    pub(crate) fn empty(alloc: Global) -> Result<HeldText, NoMemory> {
        let held = Box::new(alloc, Bytes::new(alloc))?;
        Ok(HeldText { held })
    }

    /// Makes it these two pieces. It takes memory where it has too little.
    pub(crate) fn set(&mut self, front: &[u8], rest: &[u8]) -> Result<(), NoMemory>
        ensures { OnOk result (self.new ≡ front.now ++ rest.now) }
    {
        let text = self.held.as_mut();
        text.clear();
        text.extend(front)?;
        text.extend(rest)
    }

    /// Its bytes.
    pub(crate) fn as_slice(&self) -> &[u8]
        ensures { result.now ≡ self.now }
    {
        self.held.as_ref().as_slice()
    }
}
