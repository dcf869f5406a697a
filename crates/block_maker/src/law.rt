//! Laws of the definitions. Each is the contract of a function that does nothing.

ghost use Rattle.std.specs.Prelude.{◌≡◌, ◌≤◌, List, ℕ, length, Option, Some};
ghost use Rattle.block_grammar.specs.Merkle.{block_root};
ghost use Rattle.name_script.specs.NameScript.{NameOperation, IsNameScript, IsPush};
ghost use Rattle.name_script.specs.Reading.{name_op};
ghost use Rattle.nmc_base.specs.declared.chain_ends.Tip.{Tip};
ghost use Rattle.block_maker.specs.Script.{shortest_push, script_of, IsShortPart, HasShortPushes};
ghost use Rattle.block_maker.specs.declared.operation.TheConstants.{LONGEST_PART};
ghost use Rattle.block_maker.specs.Generated.{Making, generated_block};

/// The script of an operation is a name script of it, and is read as it; and no push of a value is shorter than its
/// shortest push.
pub fn script_law()
    ensures is { (operation : NameOperation) → HasShortPushes operation → IsNameScript (script_of operation) operation }
    ensures read { (operation : NameOperation) → HasShortPushes operation → name_op (script_of operation) ≡ Some operation }
    ensures push { (value : List ℕ) → IsShortPart value → IsPush (shortest_push value) value }
    ensures shortest { (value bytes : List ℕ) → IsPush bytes value → length (shortest_push value) ≤ length bytes }
{}

/// The header of a generated block has the Merkle root of its transactions.
pub fn root_law()
    ensures { (previous : Tip) (making : Option Making) → (generated_block previous making).header.fields.root ≡ block_root (generated_block previous making) }
{}

/// The number that definitions cite by its name: how long a part of an operation may be, whose push has a length of two bytes.
pub fn number_of_parts()
    ensures { LONGEST_PART ≡ 65535 }
{}
