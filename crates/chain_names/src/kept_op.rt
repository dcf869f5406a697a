//! What undoes a name operation, as records keep it in little memory.

ghost use Rattle.std.specs.Prelude.{◌≡◌};
ghost use Rattle.chain_names.specs.declared.undo.UndoOp.{UndoOp};
ghost use Rattle.chain_names.specs.declared.undo.UndoOp.TheVariants.{New as undo_new, First as undo_first, Update as undo_update};
ghost use Rattle.chain_names.specs.Kept.{op_seen};

use crate::coin::{Coin, Item};
use crate::undo::UndoOp;
use nmc_base::{Boxed, CompactBytes, Hash20, Hash32, NoMemory, OutPoint};
use std::alloc::Global;
use std::marker::Model;

/// What undoes the giving of a value to a name, beside the output that was made.
#[derive(Drop)]
pub struct Change {
    pub spent: OutPoint,
    pub coin: Coin,
    pub name: CompactBytes,
    /// The value before.
    pub before: Option<Boxed<Item>>,
}

/// How an operation is kept: a change stands in memory of its own, so that a commitment takes less.
#[derive(Drop)]
enum Held {
    New {
        made: OutPoint,
    },
    First {
        made: OutPoint,
        change: Boxed<Change>,
    },
    Update {
        made: OutPoint,
        change: Boxed<Change>,
    },
}

/// What undoes one name operation, as records keep it. Contracts see the operation.
#[derive(Drop)]
pub struct KeptOp {
    held: Held,
}

impl Model for KeptOp {
    ghost use Rattle.chain_names.specs.declared.undo.UndoOp.{UndoOp};
    ghost use Rattle.chain_names.specs.Kept.{op_held};

    ghost Value = { UndoOp };

    ghost view = { λ k. op_held k.held };
}

/// The parts of an operation that is kept.
#[derive(Clone, Copy)]
pub enum OpParts<'a> {
    New {
        made: &'a OutPoint,
    },
    First {
        made: &'a OutPoint,
        change: &'a Change,
    },
    Update {
        made: &'a OutPoint,
        change: &'a Change,
    },
}

/// Memory for what undoes a change.
#[derive(Drop)]
pub struct ChangeRoom {
    held: Boxed<Change>,
}

impl ChangeRoom {
    /// Takes the memory.
    pub fn new(alloc: Global) -> Result<ChangeRoom, NoMemory> {
        let nowhere = OutPoint {
            txid: Hash32([0; 32]),
            index: 0,
        };
        let held = Boxed::new(
            alloc,
            Change {
                spent: nowhere,
                coin: Coin::New {
                    hash: Hash20([0; 20]),
                    height: 0,
                },
                name: CompactBytes::empty(),
                before: None,
            },
        )?;
        Ok(ChangeRoom { held })
    }

    fn filled(self, change: Change) -> Boxed<Change>
        ensures { result ≡ change }
    {
        self.held.replaced(change)
    }

    /// The opening of a name, with this change.
    pub fn first(self, made: OutPoint, change: Change) -> KeptOp
        ensures { result ≡ undo_first made change.spent change.coin change.name change.before }
    {
        let change = self.filled(change);
        KeptOp {
            held: Held::First { made, change },
        }
    }

    /// Another value of a name, with this change.
    pub fn update(self, made: OutPoint, change: Change) -> KeptOp
        ensures { result ≡ undo_update made change.spent change.coin change.name change.before }
    {
        let change = self.filled(change);
        KeptOp {
            held: Held::Update { made, change },
        }
    }
}

impl KeptOp {
    /// A commitment.
    pub fn commitment(made: OutPoint) -> KeptOp
        ensures { result ≡ undo_new made }
    {
        KeptOp {
            held: Held::New { made },
        }
    }

    /// The parts.
    pub fn parts(&self) -> OpParts<'_>
        ensures { op_seen result ≡ self.now }
    {
        match &self.held {
            Held::New { made } => OpParts::New { made },
            Held::First { made, change } => OpParts::First {
                made,
                change: change.as_ref(),
            },
            Held::Update { made, change } => OpParts::Update {
                made,
                change: change.as_ref(),
            },
        }
    }

    /// The operation; the memory of its change is given back.
    pub fn into_op(self) -> UndoOp
        ensures { result ≡ self }
    {
        match self.held {
            Held::New { made } => UndoOp::New { made },
            Held::First { made, change } => {
                let Change {
                    spent,
                    coin,
                    name,
                    before,
                } = change.into_inner();
                UndoOp::First {
                    made,
                    spent,
                    coin,
                    name,
                    before,
                }
            }
            Held::Update { made, change } => {
                let Change {
                    spent,
                    coin,
                    name,
                    before,
                } = change.into_inner();
                UndoOp::Update {
                    made,
                    spent,
                    coin,
                    name,
                    before,
                }
            }
        }
    }
}
