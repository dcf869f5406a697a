//! Laws of saves and of damage. Each is the contract of a function that does nothing.

ghost use Rattle.std.specs.Prelude.{◌⊎◌, ◌≡◌, ◌+◌, ◌≤◌, ◌^◌, ℕ, List, length, reverse};
ghost use Rattle.disk_model.specs.FileState.{IsFileImage};
ghost use Rattle.disk_model.specs.Moments.{Files};
ghost use Rattle.image_slots.specs.Slotted.{Slotted, AreOn};
ghost use Rattle.image_slots.specs.Selections.{selections_file};
ghost use Rattle.image_files.specs.Saving.{SavesAt};
ghost use Rattle.image_files.specs.Crashes.{LeavesOldOrNew};
ghost use Rattle.nmc_base.specs.declared.chain_ends.Base.{Base};
ghost use Rattle.chain_names.specs.Coins.{Maps};
ghost use Rattle.chain_names.specs.Undo.{UndoRecord};
ghost use Rattle.undo_records.specs.declared.version.Version.{Version};
ghost use Rattle.image_grammar.specs.Image.{Image, IsImageOf};
ghost use Rattle.gate_journal.specs.Records.{IsArea};
ghost use Rattle.state_image.specs.Answers.{IsSoundText};
ghost use Rattle.chain_state.specs.Chain.{Indexed, SameIndex};
ghost use Rattle.image_files.specs.Fronts.{HasFront, image_at};
ghost use Rattle.image_files.specs.Indexes.{IsIndexBy, BeginsWith, HasBadImage};
ghost use Rattle.image_files.specs.SavedTexts.{IsSavedText, IsIndexOfState};

/// The law of saves. A crash at a moment of a save leaves the old selections and the old area that they select, or one selection more
/// and in the area that it names the whole image and the records behind it.
pub fn images_of_a_save()
    ensures { (front : List ℕ) (slots : Slotted) (image : List ℕ) (records : List (List ℕ)) (old files : Files)
        → AreOn front slots (old selections_file) → SavesAt front slots.count image records old files → LeavesOldOrNew front slots.count image records old files }
{}

/// The law of damage: there is one place of it, and none where the area begins with an index of this base.
pub fn one_bad_image()
    ensures one { (base : Base) (file : List ℕ) (at other : ℕ) → HasBadImage base file at → HasBadImage base file other → at ≡ other }
    ensures none { (base : Base) (file : List ℕ) (index : Indexed) (at : ℕ) → HasFront file → BeginsWith base (image_at file) index → HasBadImage base file at → ⊥ }
{}

/// The law of images: all indexes of a text, on a base, are one.
pub fn one_index_of_an_image()
    ensures { (base : Base) (text : List ℕ) (index other : Indexed) → BeginsWith base text index → BeginsWith base text other → SameIndex index other }
{}

/// The law of saved states. An area with a journal behind an image has a front, and this image. Where the image is the text of a sound
/// state on a base, in either version, it isn't damaged, and an index with which the area begins is that of the state.
pub fn a_saved_index_is_read()
    ensures front { (image : List ℕ) (records : List (List ℕ)) (file : List ℕ) → length image ≤ 2 ^ 37 → IsArea image records file → HasFront file × (image_at file ≡ image) }
    ensures sound { (version : Version) (base : Base) (undos : List UndoRecord) (maps : Maps) (text : List ℕ)
        → (saved : IsSavedText version base undos maps text) → IsSoundText text version saved.is_text.image }
    ensures undamaged { (version : Version) (base : Base) (undos : List UndoRecord) (maps : Maps) (text file : List ℕ) (at : ℕ)
        → IsSavedText version base undos maps text → HasFront file → image_at file ≡ text → HasBadImage base file at → ⊥ }
    ensures index { (version : Version) (base : Base) (undos : List UndoRecord) (maps : Maps) (text : List ℕ) (index : Indexed)
        → (saved : IsSavedText version base undos maps text) → BeginsWith base text index → IsIndexBy base saved.is_text.image index }
    ensures state { (base : Base) (undos : List UndoRecord) (maps : Maps) (image : Image) (index : Indexed)
        → IsImageOf base (reverse undos) maps image → IsIndexBy base image index → IsIndexOfState base undos maps index }
{}
