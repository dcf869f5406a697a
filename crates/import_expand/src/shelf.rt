//! The shelf: values that were read, kept from message to message under their texts.

ghost use Rattle.std.specs.Prelude.{◌≡◌, IfOk, IfSome};
ghost use Rattle.ifa_value.specs.Object.{members};
ghost use Rattle.ifa_value.specs.Values.{object_of};

use crate::limits::{LONGEST_SHELVED, MOST_SHELVED};
use crate::shared_object::SharedObject;
use crate::shelf_text::{Sought, Text};
use ifa_value::read_value;
use lru::LruCache;
use nmc_base::NoMemory;
use std::alloc::Global;
use std::marker::Model;
use std::num::NonZeroUsize;

/// Objects of values that were read, each under its text, of which the ones that weren't used for longest give way. An object is what its text
/// says, whatever the chain does, so what stands here is never out of date.
///
/// Contracts see nothing of it: whether an object stands here changes what an answer costs, and nothing else.
#[derive(Drop)]
pub(crate) struct Shelf {
    kept: LruCache<Text, SharedObject>,
}

impl Model for Shelf {
    ghost use Rattle.import_expand.specs.Shelf.{AreRead};

    ghost Value = { Unit {0} };

    ghost view = { λ _. tt };

    ghost invariant = { λ s. AreRead s.kept.entries };
}

impl Shelf {
    /// An empty shelf. It takes the room of its map at once.
    pub(crate) fn new(alloc: Global) -> Result<Shelf, NoMemory> {
        let Some(most) = NonZeroUsize::new(MOST_SHELVED) else {
            unreachable!()
        };
        Ok(Shelf {
            kept: LruCache::new(alloc, most)?,
        })
    }

    /// The object that was used last, where it stands under this text.
    fn newest(&self, text: &[u8]) -> Option<SharedObject>
        ensures { IfSome result (λ o. members o ≡ object_of text.now) }
    {
        match self.kept.peek_mru() {
            Some((newest, object)) => {
                if newest.as_slice() == text {
                    object.share()
                } else {
                    None
                }
            }
            None => None,
        }
    }

    /// The object of a text that stands here, which becomes the one that was used last.
    fn find(&mut self, text: &[u8]) -> Option<SharedObject>
        ensures { IfSome result (λ o. members o ≡ object_of text.now) }
    {
        if !self.kept.promote(Sought { bytes: text }) {
            return None;
        }
        self.newest(text)
    }

    /// Keeps an object under its text. The one that wasn't used for longest gives way where the shelf is full.
    fn keep(&mut self, alloc: Global, text: &[u8], object: SharedObject) -> Result<(), NoMemory>
        requires { members object ≡ object_of text.now }
    {
        let text = Text::copy_of(alloc, text)?;
        drop(self.kept.push(text, object)?);
        Ok(())
    }

    /// The object of a value, which is read where it doesn't stand here. Where memory is wanting to keep it, it is given all the same.
    pub(crate) fn read(&mut self, alloc: Global, value: &[u8]) -> Result<SharedObject, NoMemory>
        ensures { IfOk result (λ o. members o ≡ object_of value.now) }
    {
        match self.find(value) {
            Some(object) => Ok(object),
            None => {
                let mut object = read_value(alloc, value)?;
                object.make(alloc);
                let object = SharedObject::to_share(alloc, object);
                if let Some(copy) = object.share() {
                    let _kept = self.keep(alloc, value, copy);
                }
                Ok(object)
            }
        }
    }
}

/// The object of a value. It is looked for on the shelf where it is short, which is made for the first.
pub(crate) fn read_shelved(
    alloc: Global,
    value: &[u8],
    shelf: &mut Option<Shelf>,
) -> Result<SharedObject, NoMemory>
    ensures { IfOk result (λ o. members o ≡ object_of value.now) }
{
    if value.len() > LONGEST_SHELVED {
        return Ok(SharedObject::alone(read_value(alloc, value)?));
    }
    if shelf.is_none() {
        *shelf = Shelf::new(alloc).ok();
    }
    match shelf {
        Some(shelf) => shelf.read(alloc, value),
        None => Ok(SharedObject::alone(read_value(alloc, value)?)),
    }
}
