//! Reads name scripts: the scripts of Namecoin's outputs that hold a name.
#![tactic(auto)]

mod operation;
mod push;

ghost use Rattle.std.specs.Prelude.{◌≡◌, ℕ, List};
ghost use Rattle.name_script.specs.NameScript.{NameOperation, IsNameScript};

pub use operation::{NameOp, read_name};

/// A script is that of one operation at most.
pub fn one_operation()
    ensures { (script : List ℕ) (a b : NameOperation)
        → IsNameScript script a → IsNameScript script b → a ≡ b }
{}
