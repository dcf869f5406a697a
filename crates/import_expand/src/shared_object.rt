//! An object that a message's book may share with the shelf.

ghost use Rattle.std.specs.Prelude.{◌≡◌, IfSome};

use ifa_value::IfaObject;
use std::alloc::Global;
use std::marker::Model;
use std::rc::Rc;

/// Who holds an object.
#[derive(Drop)]
enum Holding {
    Alone(IfaObject),
    Shared(Rc<IfaObject>),
}

/// An object that one holds alone, or shares. Contracts see the object.
#[derive(Drop)]
pub(crate) struct SharedObject {
    holding: Holding,
}

impl Model for SharedObject {
    ghost use Rattle.ifa_value.specs.declared.object.IfaObject.{IfaObject};
    ghost use Rattle.ifa_value.specs.contracts.object.IfaObject.{the_row};
    ghost use Rattle.import_expand.specs.Holdings.{object_held};

    ghost Value = { IfaObject };

    ghost coded = { the_row.coded };

    ghost view = { λ s. object_held s.holding };
}

impl SharedObject {
    /// An object that one holds alone.
    pub(crate) fn alone(object: IfaObject) -> SharedObject
        ensures { result ≡ object }
    {
        SharedObject {
            holding: Holding::Alone(object),
        }
    }

    /// An object that may be shared, unless memory is wanting: then one holds it alone.
    pub(crate) fn to_share(alloc: Global, object: IfaObject) -> SharedObject
        ensures { result ≡ object }
    {
        match Rc::new(alloc, object) {
            Ok(shared) => SharedObject {
                holding: Holding::Shared(shared),
            },
            Err(failed) => SharedObject::alone(failed.value),
        }
    }

    /// The same object once more. None where one holds it alone, or where no further holder can be counted.
    pub(crate) fn share(&self) -> Option<SharedObject>
        ensures { IfSome result (λ s. s ≡ self.now) }
    {
        match &self.holding {
            Holding::Alone(_) => None,
            Holding::Shared(shared) => match shared.clone() {
                Ok(shared) => Some(SharedObject {
                    holding: Holding::Shared(shared),
                }),
                Err(_) => None,
            },
        }
    }

    /// The object.
    pub(crate) fn as_ref(&self) -> &IfaObject
        ensures { result.now ≡ self.now }
    {
        match &self.holding {
            Holding::Alone(object) => object,
            Holding::Shared(shared) => shared.as_ref(),
        }
    }
}
