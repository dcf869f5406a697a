//! Texts of values, as what an object stands under on the shelf.

ghost use Rattle.std.specs.Prelude.{◌≡◌, IfOk};
ghost use Rattle.std.specs.Cmp.{on_per, on_equiv};
ghost use Rattle.std.specs.Str.{bytes_eq};
ghost use Rattle.import_expand.specs.Sought.{text_of};
ghost use Rattle.import_expand.specs.Texts.{text_writes, bytes_eq-equivalence, bytes_eq-partial_equivalence, same_text_writes};

use nmc_base::{Bytes, NoMemory};
use std::alloc::Global;
use std::collections::hash_map::Equivalent;
use std::hash::{Hash, Hasher};
use std::marker::Model;

/// The text of a value. Contracts see its bytes.
#[derive(Drop)]
pub(crate) struct Text {
    bytes: Bytes,
}

impl Model for Text {
    ghost use Rattle.std.specs.Prelude.{List, ℕ};

    ghost Value = { List ℕ };

    ghost view = { λ t. t.bytes };
}

impl Text {
    pub(crate) fn copy_of(alloc: Global, bytes: &[u8]) -> Result<Text, NoMemory>
        ensures { IfOk result (λ t. t ≡ bytes.now) }
    {
        Ok(Text {
            bytes: Bytes::copy_of(alloc, bytes)?,
        })
    }

    pub(crate) fn as_slice(&self) -> &[u8]
        ensures { result.now ≡ self.now }
    {
        self.bytes.as_slice()
    }
}

impl PartialEq for Text {
    ghost eq = { bytes_eq };

    ghost laws = { bytes_eq-partial_equivalence };

    fn eq(&self, other: &Text) -> bool {
        self.as_slice() == other.as_slice()
    }
}

impl Eq for Text {
    ghost laws = { bytes_eq-equivalence };
}

impl Hash for Text {
    ghost hash_input = { text_writes };

    ghost respects_eq = { same_text_writes };

    fn hash<H: Hasher>(&self, state: &mut H) {
        state.write(self.as_slice());
    }
}

/// A text that is looked for without a copy.
#[derive(Clone, Copy)]
pub(crate) struct Sought<'a> {
    pub(crate) bytes: &'a [u8],
}

impl PartialEq for Sought<'_> {
    ghost eq = { λ a b. bytes_eq a.bytes.now b.bytes.now };

    ghost laws = { on_per text_of bytes_eq-partial_equivalence };

    fn eq(&self, other: &Sought<'_>) -> bool {
        self.bytes == other.bytes
    }
}

impl Eq for Sought<'_> {
    ghost laws = { on_equiv text_of bytes_eq-equivalence };
}

impl Hash for Sought<'_> {
    ghost hash_input = { λ s. text_writes s.bytes.now };

    ghost respects_eq = { λ a b. same_text_writes a.bytes.now b.bytes.now };

    fn hash<H: Hasher>(&self, state: &mut H) {
        state.write(self.bytes);
    }
}

impl Equivalent<Text> for Sought<'_> {
    ghost equivalent = { λ s t. bytes_eq s.bytes.now t };

    ghost respects_hash = { λ s t. same_text_writes s.bytes.now t };

    ghost respects_eq = { λ s x y. bytes_eq-equivalence.congr s.bytes.now x y };

    fn equivalent(&self, key: &Text) -> bool {
        self.bytes == key.as_slice()
    }
}
