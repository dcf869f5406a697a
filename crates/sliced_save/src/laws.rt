//! Laws of the definitions. Each is the contract of a function that does nothing.

ghost use Rattle.std.specs.Prelude.{List, ℕ, drop};
ghost use Rattle.nmc_base.specs.declared.chain_ends.Base.{Base};
ghost use Rattle.chain_names.specs.Log.{Log};
ghost use Rattle.chain_state.specs.Chain.{Indexed};
ghost use Rattle.chain_state.specs.Standing.{StandsForChain};
ghost use Rattle.sliced_save.specs.Mirror.{Mirrored, MirrorsBefore, MirrorsChain, MirrorsIndex};

/// The mirror of an index is that of its chain, and the one of before its newest block is that of the chain without that block; and
/// the other way round, whichever index stands for the chain.
pub fn mirrors_follow()
    ensures now { (base : Base) (start : Log) (blocks : List (List ℕ)) (c : Indexed) (m : Mirrored) → StandsForChain base start blocks c
        → MirrorsIndex c m → MirrorsChain base start blocks m }
    ensures of_now { (base : Base) (start : Log) (blocks : List (List ℕ)) (c : Indexed) (m : Mirrored) → StandsForChain base start blocks c
        → MirrorsChain base start blocks m → MirrorsIndex c m }
    // Chains are lists, the newest block first. One without a block has no newest.
    ensures before { (base : Base) (start : Log) (blocks : List (List ℕ)) (c : Indexed) (m : Mirrored) → StandsForChain base start blocks c
        → MirrorsBefore c m → MirrorsChain base start (drop 1 blocks) m }
    ensures of_before { (base : Base) (start : Log) (blocks : List (List ℕ)) (c : Indexed) (m : Mirrored) → StandsForChain base start blocks c
        → MirrorsChain base start (drop 1 blocks) m → MirrorsBefore c m }
{}
