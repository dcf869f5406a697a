//! The laws of an image's faults. Each is the contract of a function that does nothing.

ghost use Rattle.std.specs.Prelude.{◌≡◌, ◌⊎◌, ℕ, ◌-◌, ◌<◌, List, [], ◌∷◌, ◌++◌, length, replicate, slice_index, Err};
ghost use Rattle.undo_records.specs.declared.fault.FaultKind.{FaultKind};
ghost use Rattle.image_grammar.specs.Stages.{image_from};
ghost use Rattle.image_faults.specs.Faults.{HasImageFault};
ghost use Rattle.state_image.specs.Answers.{IsDamaged};

/// The law of faults. The reader answers a fault exactly where the text has one by the grammar, and with its place: the number of bytes before
/// the rest, which is none where the text ends too early.
pub fn faults_of_images()
    ensures told { (text : List ℕ) (kind : FaultKind) (rest : List ℕ) → ((i : ℕ) → slice_index text i < 256) → image_from text ≡ Err (kind, rest) → HasImageFault text (length text - length rest) }
    ensures only { (text : List ℕ) (at : ℕ) → ((i : ℕ) → slice_index text i < 256) → HasImageFault text at
        → (kind : FaultKind) × (rest : List ℕ) × (image_from text ≡ Err (kind, rest)) × (at ≡ length text - length rest) }
{}

/// Faults by the grammar, of rows worked by hand: a byte of the magic, of the version and of the profile that is another one; and a
/// byte behind the image of a base of height 0 and hash 0 without blocks, coins and names.
pub fn worked_faults()
    ensures magic { HasImageFault (0x4e ∷ 0x4d ∷ 0x43 ∷ 0x48 ∷ 2 ∷ []) 3 }
    ensures version { HasImageFault (0x4e ∷ 0x4d ∷ 0x43 ∷ 0x49 ∷ 3 ∷ 1 ∷ []) 4 }
    ensures profile { HasImageFault (0x4e ∷ 0x4d ∷ 0x43 ∷ 0x49 ∷ 2 ∷ 0 ∷ []) 5 }
    ensures behind { HasImageFault (0x4e ∷ 0x4d ∷ 0x43 ∷ 0x49 ∷ 2 ∷ 1 ∷ (replicate 48 0 ++ 7 ∷ [])) 54 }
{}

/// The law of damage. A text with a fault by the grammar of images is damaged at its place. Any other that is damaged has the place 0: it is
/// that of an image whose state isn't sound.
pub fn damage_by_the_grammar()
    ensures fault { (text : List ℕ) (at : ℕ) → ((i : ℕ) → slice_index text i < 256) → HasImageFault text at → IsDamaged text at }
    ensures only { (text : List ℕ) (at : ℕ) → ((i : ℕ) → slice_index text i < 256) → IsDamaged text at
        → HasImageFault text at ⊎ (((place : ℕ) → HasImageFault text place → ⊥) × (at ≡ 0)) }
{}
