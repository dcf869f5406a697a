//! The laws of widths. Each is the contract of a function that does nothing.

ghost use Rattle.std.specs.Prelude.{◌≡◌, ℕ, ◌≤◌, List, [], length};
ghost use Rattle.std.specs.List.{AllByRecursion};
ghost use Rattle.nmc_base.specs.declared.chain_ends.Base.{Base};
ghost use Rattle.chain_names.specs.Log.{Log};
ghost use Rattle.chain_names.specs.Measured.{AreMeasured};
ghost use Rattle.chain_names.specs.Start.{IsStart};
ghost use Rattle.chain_names.specs.Undo.{UndoRecord};
ghost use Rattle.chain_names.specs.UndoOf.{AreUndos};
ghost use Rattle.chain_names.specs.Writable.{IsWritable};
ghost use Rattle.undo_records.specs.Measured.{IsMeasured};
ghost use Rattle.undo_records.specs.declared.version.Version.{Version};
ghost use Rattle.image_grammar.specs.Image.{HasText};
ghost use Rattle.chain_state.specs.Standing.{AreValid, chain_maps};
ghost use Rattle.chain_commands.specs.Chain.{Chain};
ghost use Rattle.chain_commands.specs.RunState.{on_base};
ghost use Rattle.chain_commands.specs.Saving.{IsTextOf, longest_image};
ghost use Rattle.saved_widths.specs.Wide.{HaveWidePoints};

/// A start list is wide where the chain of no blocks says what is, and where a text of its index is one that is read again: no make is
/// hidden by another, and none is expired in the first block. The empty one is.
pub fn starts_are_wide()
    ensures none { HaveWidePoints [] }
    ensures maps { (base : Base) (start : Log) → IsStart base.profile base.height start → AreMeasured (chain_maps base start []) → HaveWidePoints start }
    ensures text { (version : Version) (base : Base) (start : Log) (text : List ℕ) (is : IsTextOf version (on_base base start) text)
        → IsStart base.profile base.height start → HasText is.is_text.image → HaveWidePoints start }
{}

/// What the log of a chain of valid blocks says is as wide as its fields, and so are the records that undo its blocks, each of which has
/// a text: txids are hashes, an output's index is below the number of the block's bytes, and heights are those of the chain.
pub fn chains_have_widths()
    ensures maps { (base : Base) (start : Log) (blocks : List (List ℕ)) → HaveWidePoints start → AreValid base start blocks → AreMeasured (chain_maps base start blocks) }
    ensures undos { (base : Base) (start : Log) (blocks : List (List ℕ)) (undos : List UndoRecord) → HaveWidePoints start → AreValid base start blocks
        → AreUndos base.profile start base.height blocks undos → AllByRecursion IsMeasured undos }
    ensures writable { (base : Base) (start : Log) (blocks : List (List ℕ)) (undos : List UndoRecord) → HaveWidePoints start → AreValid base start blocks
        → AreUndos base.profile start base.height blocks undos → AllByRecursion IsWritable undos }
{}

/// A text of the index of a chain of valid blocks, no longer than an image may be, is that of an image which is read again.
pub fn texts_are_read_again()
    ensures { (version : Version) (chain : Chain) (text : List ℕ) (is : IsTextOf version chain text) → length chain.base.hash.0 ≡ 32
        → HaveWidePoints chain.start → AreValid chain.base chain.start chain.blocks → length text ≤ longest_image → HasText is.is_text.image }
{}
