//! Laws of the definitions. Each is the contract of a function that does nothing.

ghost use Rattle.std.specs.Prelude.{◌≡◌, ℕ, List, reverse};
ghost use Rattle.nmc_base.specs.declared.chain_ends.Profile.{Profile};
ghost use Rattle.chain_names.specs.Coins.{Maps};
ghost use Rattle.chain_names.specs.Sound.{IsSound};
ghost use Rattle.chain_names.specs.Undo.{UndoRecord};
ghost use Rattle.undo_records.specs.declared.version.Version.TheVariants.{One};
ghost use Rattle.image_grammar.specs.Image.{Image, HasText, image_told, names_listed};
ghost use Rattle.registrations.specs.Filling.{names_filled, undos_filled};
ghost use Rattle.registrations.specs.Images.{AreToldAlike, AreWritable, IsRefilled};
ghost use Rattle.registrations.specs.Told.{Histories, TellSame};

/// The registration heights of a sound state, in its histories and in its records, are those that follow from its records by the
/// rule: an item that no operation made and one that opened its name begin their registration, and one that updated its name
/// goes on with that of the item before it.
pub fn registrations_follow()
    ensures names { (profile : Profile) (base tip : ℕ) (maps : Maps) (us : List UndoRecord) → IsSound profile base tip maps us → names_filled us maps.names ≡ maps.names }
    ensures undos { (profile : Profile) (base tip : ℕ) (maps : Maps) (us : List UndoRecord) → IsSound profile base tip maps us → undos_filled us maps.names ≡ us }
{}

/// A text of version 1 tells a sound state whole: two sound states of which it tells the same are the same, whatever their
/// profiles, bases and tips.
pub fn a_sound_state_is_told_by_version_1()
    ensures { (profile other_profile : Profile) (base other_base tip other_tip : ℕ) (maps other : Maps) (us others : List UndoRecord)
        → IsSound profile base tip maps us → IsSound other_profile other_base other_tip other others
        → maps.coins ≡ other.coins → TellSame maps.names other.names us others → (maps ≡ other) × (us ≡ others) }
{}

/// Of images of which version 1 tells the same, it tells the same of base, coins, histories and records. And an image with other
/// histories and records, of which it tells the same, has the same text.
pub fn images_of_one_text()
    ensures alike { (image other : Image) → image_told One image ≡ image_told One other → AreToldAlike image other }
    ensures refilled { (image : Image) (names : Histories) (us : List UndoRecord) → HasText image → TellSame names (names_listed image.names) us (reverse image.undos)
        → (AreWritable (names_listed image.names) (reverse image.undos) → AreWritable names us) → IsRefilled image names us }
    ensures writable { (image : Image) → HasText image → AreWritable (names_listed image.names) (reverse image.undos) }
{}
