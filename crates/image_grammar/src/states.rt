//! Laws of the images of states.

ghost use Rattle.std.specs.Prelude.{◌≡◌, ℕ, ◌≤◌, ◌^◌, List, length};
ghost use Rattle.nmc_base.specs.declared.chain_ends.Base.{Base};
ghost use Rattle.chain_names.specs.Coins.{Maps};
ghost use Rattle.chain_names.specs.Sound.{IsSound};
ghost use Rattle.chain_names.specs.Undo.{UndoRecord};
ghost use Rattle.undo_records.specs.declared.version.Version.{Version};
ghost use Rattle.image_grammar.specs.Image.{Image, HasText, IsImageOf};
ghost use Rattle.image_grammar.specs.Text.{IsStateText};
ghost use Rattle.image_grammar.specs.Widths.{HaveWidths};

/// A state has one image at most with a base and records, and so one text in each version.
pub fn one_image_of_a_state()
    ensures image { (base : Base) (undos : List UndoRecord) (maps : Maps) (image other : Image) → IsImageOf base undos maps image → IsImageOf base undos maps other → image ≡ other }
    ensures text { (version : Version) (base : Base) (undos : List UndoRecord) (maps : Maps) (text other : List ℕ) → IsStateText version base undos maps text
        → IsStateText version base undos maps other → text ≡ other }
{}

/// The image of a sound state whose text has at most 2^37 bytes has what is read again: its counts are below 2^32, and names and
/// values within their lengths.
pub fn images_are_written()
    ensures { (version : Version) (base : Base) (tip : ℕ) (undos : List UndoRecord) (maps : Maps) (text : List ℕ) (is : IsStateText version base undos maps text) → HaveWidths base undos maps
        → IsSound base.profile base.height tip maps undos → length text ≤ 2 ^ 37 → HasText is.image }
{}
