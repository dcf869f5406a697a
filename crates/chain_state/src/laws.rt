//! Laws of the index of a chain. Each is the contract of a function that does nothing, over what the calls of
//! `chain_state` ensure.

ghost use Rattle.std.specs.Prelude.{◌≡◌, ℕ, ◌+◌, ◌≤◌, List, [], ◌∷◌, length};
ghost use Rattle.block_grammar.specs.Block.{Block, IsBlock};
ghost use Rattle.nmc_base.specs.declared.chain_ends.Base.{Base};
ghost use Rattle.nmc_base.specs.declared.hashes.Hash32.{Hash32};
ghost use Rattle.nmc_base.specs.declared.limits.TheConstants.{LONGEST_BLOCK};
ghost use Rattle.chain_names.specs.Log.{Log};
ghost use Rattle.chain_names.specs.Undo.{UndoRecord};
ghost use Rattle.chain_names.specs.Sound.{IsSound};
ghost use Rattle.chain_names.specs.UndoOf.{AreUndos};
ghost use Rattle.name_tables.specs.Tables.{maps_by};
ghost use Rattle.chain_state.specs.Chain.{Indexed, IsIndexed, IsAtStart, SameIndex, StagedIndex, IsStagedOn, IsConnected, IsAbandoned};
ghost use Rattle.chain_state.specs.Stage.{IsRefusal};
ghost use Rattle.chain_state.specs.StageBack.{IsStagedBackOn, IsBackRefusal, IsDisconnected};
ghost use Rattle.chain_state.specs.declared.stage.Refusal.{Refusal};
ghost use Rattle.chain_state.specs.declared.back.BackRefusal.{BackRefusal};
ghost use Rattle.chain_state.specs.Standing.{IsValidOn, AreValid, StandsForChain, chain_maps};
ghost use Rattle.chain_state.specs.Refusals.{RefusesConnect, RefusesDisconnect, MayDisconnect};

/// The index of a base with a start list is sound, and stands for the chain of no blocks.
pub fn base_stands()
    ensures sound { (base : Base) (start : Log) (c : Indexed) → IsAtStart base start c
        → IsSound c.base.profile c.base.height c.tip.height (maps_by c.tables) c.undos }
    ensures stands { (base : Base) (start : Log) (c : Indexed) → IsAtStart base start c → StandsForChain base start [] c }
{}

/// The same index stands for the same chain: what is handed back where nothing was staged, and what an abandoned
/// disconnect leaves.
pub fn same_stands()
    ensures { (base : Base) (start : Log) (blocks : List (List ℕ)) (old new : Indexed)
        → StandsForChain base start blocks old → SameIndex new old → StandsForChain base start blocks new }
{}

/// A block is staged exactly where it is valid on the chain, and refused exactly by the chain's log: for each refusal
/// both ways.
pub fn connects_follow()
    ensures valid { (base : Base) (start : Log) (blocks : List (List ℕ)) (c : Indexed) (bytes : List ℕ) (block : Block) (staged : StagedIndex)
        → StandsForChain base start blocks c → IsBlock bytes block → length bytes ≤ LONGEST_BLOCK
        → IsStagedOn c block staged → IsValidOn base start blocks bytes }
    ensures unrefused { (base : Base) (start : Log) (blocks : List (List ℕ)) (bytes : List ℕ) (block : Block) (refusal : Refusal)
        → IsBlock bytes block → IsValidOn base start blocks bytes → RefusesConnect base start blocks bytes block refusal → ⊥ }
    ensures by_chain { (base : Base) (start : Log) (blocks : List (List ℕ)) (c : Indexed) (bytes : List ℕ) (block : Block) (refusal : Refusal)
        → StandsForChain base start blocks c → IsBlock bytes block
        → IsRefusal c block refusal → RefusesConnect base start blocks bytes block refusal }
    ensures by_index { (base : Base) (start : Log) (blocks : List (List ℕ)) (c : Indexed) (bytes : List ℕ) (block : Block) (refusal : Refusal)
        → StandsForChain base start blocks c → IsBlock bytes block
        → RefusesConnect base start blocks bytes block refusal → IsRefusal c block refusal }
{}

/// A disconnect is staged exactly where the hash is that of the newest block, and refused exactly by the base and the
/// tip's hash: for each refusal both ways.
pub fn disconnects_follow()
    ensures allowed { (base : Base) (start : Log) (blocks : List (List ℕ)) (c staged : Indexed) (hash : Hash32)
        → StandsForChain base start blocks c → IsStagedBackOn c hash staged → MayDisconnect base blocks hash }
    ensures unrefused { (base : Base) (blocks : List (List ℕ)) (hash : Hash32) (refusal : BackRefusal)
        → MayDisconnect base blocks hash → RefusesDisconnect base blocks hash refusal → ⊥ }
    ensures by_chain { (base : Base) (start : Log) (blocks : List (List ℕ)) (c : Indexed) (hash : Hash32) (refusal : BackRefusal)
        → StandsForChain base start blocks c → IsBackRefusal c hash refusal → RefusesDisconnect base blocks hash refusal }
    ensures by_index { (base : Base) (start : Log) (blocks : List (List ℕ)) (c : Indexed) (hash : Hash32) (refusal : BackRefusal)
        → StandsForChain base start blocks c → RefusesDisconnect base blocks hash refusal → IsBackRefusal c hash refusal }
{}

/// A block that is staged and committed joins the chain, and one that is staged and abandoned leaves it as it was.
pub fn connects_stand()
    ensures committed { (base : Base) (start : Log) (blocks : List (List ℕ)) (old new : Indexed) (staged : StagedIndex) (bytes : List ℕ) (block : Block)
        → StandsForChain base start blocks old → IsBlock bytes block → length bytes ≤ LONGEST_BLOCK
        → IsStagedOn old block staged → IsConnected staged new → StandsForChain base start (bytes ∷ blocks) new }
    ensures abandoned { (base : Base) (start : Log) (blocks : List (List ℕ)) (old new : Indexed) (staged : StagedIndex) (block : Block)
        → StandsForChain base start blocks old → IsStagedOn old block staged → IsAbandoned staged new → StandsForChain base start blocks new }
{}

/// A disconnect that is staged and committed leaves the chain without its newest block, of which there was one; one that
/// is staged and abandoned leaves the chain as it was.
pub fn disconnects_stand()
    ensures some { (base : Base) (start : Log) (old staged : Indexed) (hash : Hash32)
        → StandsForChain base start [] old → IsStagedBackOn old hash staged → ⊥ }
    ensures committed { (base : Base) (start : Log) (bytes : List ℕ) (blocks : List (List ℕ)) (old staged new : Indexed) (hash : Hash32)
        → StandsForChain base start (bytes ∷ blocks) old → IsStagedBackOn old hash staged → IsDisconnected staged new
        → StandsForChain base start blocks new }
    ensures abandoned { (base : Base) (start : Log) (blocks : List (List ℕ)) (old staged new : Indexed) (hash : Hash32)
        → StandsForChain base start blocks old → IsStagedBackOn old hash staged → SameIndex new staged → StandsForChain base start blocks new }
{}

/// Disconnecting undoes connecting: from every sound index, as each chain's parts are, a block that is committed and then
/// disconnected leaves the index from before.
pub fn disconnecting_undoes()
    ensures { (old new back gone : Indexed) (staged : StagedIndex) (block : Block) (hash : Hash32)
        → IsIndexed old → IsStagedOn old block staged → IsConnected staged new → IsStagedBackOn new hash back → IsDisconnected back gone
        → SameIndex gone old }
{}

/// Connecting again redoes: where the index stands for a chain, its newest block isn't refused after it was
/// disconnected, and its commit leaves the index from before.
pub fn connecting_again_redoes()
    ensures unrefused { (base : Base) (start : Log) (bytes : List ℕ) (blocks : List (List ℕ)) (old back gone : Indexed) (block : Block) (hash : Hash32) (refusal : Refusal)
        → StandsForChain base start (bytes ∷ blocks) old → IsBlock bytes block → IsStagedBackOn old hash back → IsDisconnected back gone
        → IsRefusal gone block refusal → ⊥ }
    ensures same { (base : Base) (start : Log) (bytes : List ℕ) (blocks : List (List ℕ)) (old back gone again : Indexed) (staged : StagedIndex) (block : Block) (hash : Hash32)
        → StandsForChain base start (bytes ∷ blocks) old → IsBlock bytes block → IsStagedBackOn old hash back → IsDisconnected back gone
        → IsStagedOn gone block staged → IsConnected staged again → SameIndex again old }
{}

/// Two indexes that stand for one chain are the same.
pub fn one_index()
    ensures { (base : Base) (start : Log) (blocks : List (List ℕ)) (a b : Indexed)
        → StandsForChain base start blocks a → StandsForChain base start blocks b → SameIndex a b }
{}

/// The index of every chain of valid blocks is sound, with the one list of records that undo them; and so is each index
/// that stands for a chain.
pub fn chains_are_sound()
    ensures undos { (base : Base) (start : Log) (blocks : List (List ℕ)) → AreValid base start blocks
        → (undos : List UndoRecord) × AreUndos base.profile start base.height blocks undos }
    ensures chain { (base : Base) (start : Log) (blocks : List (List ℕ)) (undos : List UndoRecord)
        → AreValid base start blocks → AreUndos base.profile start base.height blocks undos
        → IsSound base.profile base.height (base.height + length blocks) (chain_maps base start blocks) undos }
    ensures index { (base : Base) (start : Log) (blocks : List (List ℕ)) (c : Indexed) → StandsForChain base start blocks c
        → IsSound c.base.profile c.base.height c.tip.height (maps_by c.tables) c.undos }
{}
