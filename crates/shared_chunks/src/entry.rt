//! A pair that chunks share, with the number that stands for its key.

ghost use Rattle.std.specs.Prelude.{◌≡◌, IfOk};

use crate::hints::Hinted;
use nmc_base::NoMemory;
use std::alloc::Global;
use std::cmp::Ordering;
use std::marker::Model;
use std::rc::Rc;

/// A pair behind a shared pointer, beside the number of its key.
///
/// Contracts see the pair.
#[derive(Drop)]
pub struct Entry<K: Hinted, V> {
    hint: u64,
    pair: Rc<(K, V)>,
}

impl<K: Hinted, V> Model for Entry<K, V> {
    ghost use Rattle.std.specs.Prelude.{◌≡◌};

    ghost Value = { K × V };

    ghost view = { λ e. e.pair.value };

    ghost invariant = { λ e. e.hint ≡ K.hint_of e.pair.value.0 };
}

impl<K: Hinted, V> Entry<K, V> {
    /// The number of its key.
    pub fn hint(&self) -> u64
        ensures { result ≡ K.hint_of self.now.0 }
    {
        self.hint
    }

    pub fn key(&self) -> &K
        ensures { result.now ≡ self.now.0 }
    {
        &self.pair.as_ref().0
    }

    pub fn value(&self) -> &V
        ensures { result.now ≡ self.now.1 }
    {
        &self.pair.as_ref().1
    }

    /// How the key stands to that of this pair. The pair is read where their numbers are the same alone.
    pub fn order(&self, hint: u64, key: &K) -> Ordering
        requires { hint ≡ K.hint_of key.now }
        ensures { result ≡ K.cmp key.now self.now.0 }
    {
        if hint < self.hint {
            Ordering::Less
        } else if self.hint < hint {
            Ordering::Greater
        } else {
            key.cmp(self.key())
        }
    }
}

impl<K: Hinted + Drop, V: Drop> Entry<K, V> {
    pub fn new(alloc: Global, key: K, value: V) -> Result<Entry<K, V>, NoMemory>
        ensures { IfOk result (λ e. e ≡ (key, value)) }
    {
        let hint = key.hint();
        let pair = Rc::new(alloc, (key, value))?;
        Ok(Entry { hint, pair })
    }

    /// The same pair. It takes no memory.
    pub fn copy(&self) -> Result<Entry<K, V>, NoMemory>
        ensures { IfOk result (λ e. e ≡ self.now) }
    {
        let hint = self.hint;
        let pair = self.pair.clone()?;
        Ok(Entry { hint, pair })
    }
}
