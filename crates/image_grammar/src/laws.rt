//! Laws of the text of an image. Each is the contract of a function that does nothing.

ghost use Rattle.std.specs.Prelude.{◌≡◌, ℕ, ◌<◌, ◌≤◌, ◌^◌, List, [], ◌∷◌, ◌++◌, length, replicate, reverse, slice_index, Ok, Err};
ghost use Rattle.undo_records.specs.declared.fault.FaultKind.TheVariants.{Cut, BadTag};
ghost use Rattle.sound_states.specs.Walk.{HasFewCoins};
ghost use Rattle.undo_records.specs.declared.version.Version.{Version};
ghost use Rattle.image_grammar.specs.Answers.{IsTextOf, IsWhole};
ghost use Rattle.image_grammar.specs.Image.{Image, HasText, image_told, maps_listed};
ghost use Rattle.image_grammar.specs.Resuming.{IsStable};
ghost use Rattle.image_grammar.specs.Stages.{Gathered, Standing, image_from, rest_from, step_from, step_then};
ghost use Rattle.image_grammar.specs.Text.{image_text};

/// What is written is read again, in either version, and nothing is left: the base, the records and the state that the image
/// lists. A text of version 1 tells all but the registration heights, which are read with 0.
pub fn written_is_read_again()
    ensures { (version : Version) (image : Image) → HasText image → IsWhole (image_told version image) (image_from (image_text version image)) }
{}

/// What is read with nothing left was so written: the bytes are the text of an image, and this is what it lists.
pub fn what_is_read_was_written()
    ensures { (text : List ℕ) (g : Gathered) → ((i : ℕ) → slice_index text i < 256) → image_from text ≡ Ok (g, []) → IsTextOf text g }
{}

/// Bytes are the text of one version alone, and of what it tells of one image.
pub fn one_image()
    ensures version { (version other_version : Version) (image other : Image) → image_text version image ≡ image_text other_version other → version ≡ other_version }
    ensures told { (version : Version) (image other : Image) → HasText image → HasText other → image_text version image ≡ image_text version other
        → image_told version image ≡ image_told version other }
{}

/// What a step answers stands whatever follows, but for an early end.
pub fn readers_are_stable()
    ensures { (s : Standing) → IsStable (step_from s) }
{}

/// The rest of a text is read by one step, and then from where the reading stands behind it.
pub fn steps_are_the_reading()
    ensures { (s : Standing) (bytes : List ℕ) → rest_from s bytes ≡ step_then s bytes }
{}

/// All coins of an image and of its records are fewer than 2^32 where its text has at most 2^37 bytes.
pub fn few_coins()
    ensures { (version : Version) (image : Image) → HasText image → length (image_text version image) ≤ 2 ^ 37 → HasFewCoins (maps_listed image) (reverse image.undos) }
{}

/// The faults of some bytes: an early end; a byte of the magic, of the version, and of the profile that differs; and a byte behind
/// the image of a base of height 0 and hash 0 without blocks, coins and names.
pub fn small_faults()
    ensures cut { image_from (0x4e ∷ []) ≡ Err (Cut, []) }
    ensures magic { image_from (0x4e ∷ 0x4d ∷ 0x43 ∷ 0x48 ∷ 2 ∷ []) ≡ Err (BadTag, 0x48 ∷ 2 ∷ []) }
    ensures version { image_from (0x4e ∷ 0x4d ∷ 0x43 ∷ 0x49 ∷ 3 ∷ 1 ∷ []) ≡ Err (BadTag, 3 ∷ 1 ∷ []) }
    ensures profile { image_from (0x4e ∷ 0x4d ∷ 0x43 ∷ 0x49 ∷ 2 ∷ 0 ∷ []) ≡ Err (BadTag, 0 ∷ []) }
    ensures behind { image_from (0x4e ∷ 0x4d ∷ 0x43 ∷ 0x49 ∷ 2 ∷ 1 ∷ (replicate 48 0 ++ 7 ∷ [])) ≡ Err (BadTag, 7 ∷ []) }
{}
