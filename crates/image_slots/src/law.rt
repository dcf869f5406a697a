//! Laws of selections. Each is the contract of a function that does nothing.

ghost use Rattle.std.specs.Prelude.{◌≡◌, ◌≢◌, ◌⊎◌, ◌+◌, ◌≤◌, ◌∷◌, ◌++◌, [], ℕ, List, length, take};
ghost use Rattle.disk_model.specs.Moments.{Files};
ghost use Rattle.disk_model.specs.Changes.{LeavesOthers};
ghost use Rattle.image_slots.specs.Selections.{HasSelections, selections_file, selected_by, drafted_by, selections, next_selection};
ghost use Rattle.image_slots.specs.Damage.{IsDamaged};

/// The laws of the two areas. The one that is drafted is file 1 or 2, and not the selected one, so what changes no other file leaves
/// the selected one as it was, and so does what changes only the file of the selections. A selection goes over to the drafted one.
pub fn areas_of_selections()
    ensures apart { (count : ℕ) → selected_by count ≢ drafted_by count }
    ensures two { (count : ℕ) → (drafted_by count ≡ 1) ⊎ (drafted_by count ≡ 2) }
    ensures spared { (count : ℕ) (old files : Files) → LeavesOthers (drafted_by count) old files → files (selected_by count) ≡ old (selected_by count) }
    ensures spared_too { (count : ℕ) (old files : Files) → LeavesOthers selections_file old files → files (selected_by count) ≡ old (selected_by count) }
    ensures turns { (count : ℕ) → selected_by (count + 1) ≡ drafted_by count }
    ensures one_more { (count : ℕ) → selections (count + 1) ≡ selections count ++ next_selection count ∷ [] }
{}

/// The law of lists of selections: behind a front a file has one, and the front stands in the file.
pub fn one_list_of_selections()
    ensures told_apart { (front : List ℕ) (count other : ℕ) (file : List ℕ)
        → HasSelections front count file → HasSelections front other file → count ≡ other }
    ensures front { (front : List ℕ) (count : ℕ) (file : List ℕ) → HasSelections front count file → take (length front) file ≡ front }
{}

/// The law of damage: there is one place of it, and none where the file has no more selections than there may be.
pub fn one_damage_of_selections()
    ensures one { (at most : ℕ) (file : List ℕ) (place other : ℕ) → IsDamaged at most file place → IsDamaged at most file other → place ≡ other }
    ensures none { (at most count : ℕ) (file : List ℕ) (place : ℕ) → HasSelections (take at file) count file → count ≤ most → IsDamaged at most file place → ⊥ }
{}
