//! Laws of sound states. Each is the contract of a function that does nothing.

ghost use Rattle.std.specs.Prelude.{ℕ, suc, List, ◌∷◌};
ghost use Rattle.nmc_base.specs.declared.chain_ends.Profile.{Profile};
ghost use Rattle.chain_names.specs.Coins.{Maps};
ghost use Rattle.chain_names.specs.Changes.{undone};
ghost use Rattle.chain_names.specs.Undo.{UndoRecord};
ghost use Rattle.chain_names.specs.State.{HasFewNames, IsState};
ghost use Rattle.chain_names.specs.Fits.{FitsState};
ghost use Rattle.chain_names.specs.Sound.{IsSound};
ghost use Rattle.sound_states.specs.Leaving.{LeavesState};
ghost use Rattle.sound_states.specs.StepLists.{IsStepByLists};
ghost use Rattle.sound_states.specs.Walk.{HasFewCoins, IsWalk, IsWalkStep};

/// Undoing a record that fits leaves a state, where what the record touches is sound, where no coin has the block's height,
/// and where not too many names have any one height.
pub fn undoing_leaves_a_state()
    ensures { (profile : Profile) (tip : ℕ) (u : UndoRecord) (maps : Maps) → IsState profile (suc tip) maps → FitsState profile (suc tip) u maps
        → LeavesState profile tip u (undone u.ops u.expired maps) → IsState profile tip (undone u.ops u.expired maps) }
{}

/// A state is sound with its records exactly where a walk down to the base finds nothing wrong. On the way only what a record
/// touches is looked at; at the base all that is left is, and there each item has to begin its registration.
pub fn soundness_by_walking()
    ensures decided { (profile : Profile) (base tip : ℕ) (maps : Maps) (us : List UndoRecord) → IsState profile tip maps → HasFewCoins maps us
        → IsWalk profile base tip maps us → IsSound profile base tip maps us }
    ensures only { (profile : Profile) (base tip : ℕ) (maps : Maps) (us : List UndoRecord) → IsSound profile base tip maps us → IsWalk profile base tip maps us }
{}

/// A step of the walk is what is looked at operation by operation, and coin by coin.
pub fn steps_by_lists()
    ensures decided { (profile : Profile) (tip : ℕ) (u : UndoRecord) (maps left : Maps) → IsStepByLists profile tip u maps left → IsWalkStep profile tip u maps left }
    ensures only { (profile : Profile) (tip : ℕ) (u : UndoRecord) (maps left : Maps) → IsWalkStep profile tip u maps left → IsStepByLists profile tip u maps left }
{}

/// Where all coins of a state and of its records together are fewer than 2^32, the names of each height are, and so is what
/// undoing the newest record leaves.
pub fn few_coins()
    ensures names { (maps : Maps) (us : List UndoRecord) → HasFewCoins maps us → (height : ℕ) → HasFewNames maps.coins height }
    ensures left { (maps : Maps) (u : UndoRecord) (us : List UndoRecord) → HasFewCoins maps (u ∷ us) → HasFewCoins (undone u.ops u.expired maps) us }
{}
