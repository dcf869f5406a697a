//! Laws of the definitions. Each is the contract of a function that does nothing.

ghost use Rattle.std.specs.Prelude.{◌≡◌, ℕ, suc, ◌+◌, ◌<◌, ◌≤◌, ◌^◌, true, List, [], ◌∷◌, length, Option, Some, None};
ghost use Rattle.std.specs.List.{AllByRecursion};
ghost use Rattle.block_grammar.specs.Transaction.{Transaction};
ghost use Rattle.nmc_base.specs.declared.chain_ends.Profile.{Profile};
ghost use Rattle.nmc_base.specs.declared.hashes.OutPoint.{OutPoint};
ghost use Rattle.nmc_base.specs.Expiry.{due_height};
ghost use Rattle.chain_names.specs.declared.coin.Coin.{Coin};
ghost use Rattle.chain_names.specs.declared.coin.HeldCoin.{HeldCoin};
ghost use Rattle.chain_names.specs.Log.{Log, behind_coinbase, log_of, transactions_in};
ghost use Rattle.chain_names.specs.Coins.{Maps, maps_of};
ghost use Rattle.chain_names.specs.Changes.{after_all, after_block, first_refused, restored, undo_ops, undone};
ghost use Rattle.chain_names.specs.Index.{index_maps, next_height, refused_in};
ghost use Rattle.chain_names.specs.Start.{IsStart};
ghost use Rattle.chain_names.specs.Tables.{is_named_at};
ghost use Rattle.chain_names.specs.Undo.{UndoRecord};
ghost use Rattle.chain_names.specs.Expired.{IsGone, IsDue};
ghost use Rattle.chain_names.specs.Fits.{AreUndoable, FitsState, IsJustExpired, with_restored};
ghost use Rattle.block_grammar.specs.Block.{count_outputs};
ghost use Rattle.chain_names.specs.Sound.{AreAccepted, IsSound, MayFollow};
ghost use Rattle.nmc_base.specs.Heights.{highest};
ghost use Rattle.chain_names.specs.State.{IsState};
ghost use Rattle.chain_names.specs.UndoOf.{AreUndos, IsUndoByMaps, IsUndoOf, hash_in, undo_ops_in};

/// Where no transaction is refused, the undo operations by the log, searched anew for each transaction, are those by
/// the maps.
pub fn undo_agrees()
    ensures { (profile : Profile) (height index : ℕ) (transactions : List Transaction) (log : Log)
        → refused_in profile height index transactions log ≡ None
        → undo_ops_in profile height transactions log ≡ undo_ops profile height transactions (maps_of profile log height) }
{}

/// Undoing a block without a refusal gives the maps before it: the coins that were due are put back, and then the
/// operations are undone, from the last to the first.
pub fn undone_restores()
    ensures { (profile : Profile) (height index : ℕ) (transactions : List Transaction) (maps : Maps) (expired : List HeldCoin)
        → first_refused profile height index transactions maps ≡ None
        → IsDue (after_all profile height transactions maps).coins (after_block profile height transactions maps).coins expired
        → undone (undo_ops profile height transactions maps) expired (after_block profile height transactions maps) ≡ maps }
{}

/// Where coins that are gone, put back, give the coins before, these are all that were due.
pub fn restored_are_due()
    ensures { (now next : OutPoint → Option Coin) (expired : List HeldCoin) → AllByRecursion (IsGone now next) expired
        → restored expired next ≡ now → IsDue now next expired }
{}

/// The transactions of the next block keep a state, where they have fewer than 2^32 outputs in all and the block is no
/// higher than any chain may be. A transaction that is refused changes nothing.
pub fn block_keeps_state()
    ensures { (profile : Profile) (tip : ℕ) (transactions : List Transaction) (maps : Maps) → IsState profile tip maps
        → suc tip ≤ highest → count_outputs transactions < 2 ^ 32
        → IsState profile (suc tip) (after_block profile (suc tip) transactions maps) }
{}

/// The next block keeps a chain sound: its record is that of its operations and of the coins that were due, in order.
pub fn block_keeps_soundness()
    ensures { (profile : Profile) (base tip : ℕ) (transactions : List Transaction) (maps : Maps) (u : UndoRecord) (us : List UndoRecord)
        → IsSound profile base tip maps us → MayFollow profile tip transactions maps → IsUndoByMaps profile (suc tip) transactions maps u
        → IsSound profile base (suc tip) (after_block profile (suc tip) transactions maps) (u ∷ us) }
{}

/// A base alone with a start list is sound, and it is the index of the chain of no blocks.
pub fn begins_sound()
    ensures sound { (profile : Profile) (start : Log) (base : ℕ) → base ≤ highest → IsStart profile base start
        → IsSound profile base base (maps_of profile start (suc base)) [] }
    ensures index { (profile : Profile) (start : Log) (base : ℕ) → index_maps profile start base [] ≡ maps_of profile start (suc base) }
{}

/// The index of each chain of accepted blocks is sound, with the records that undo them.
pub fn index_is_sound()
    ensures { (profile : Profile) (start : Log) (base : ℕ) (blocks : List (List ℕ)) (us : List UndoRecord)
        → AreAccepted profile start base blocks → AreUndos profile start base blocks us
        → IsSound profile base (base + length blocks) (index_maps profile start base blocks) us }
{}

/// Each chain of accepted blocks has its undo records.
pub fn chains_have_undos()
    ensures { (profile : Profile) (start : Log) (base : ℕ) (blocks : List (List ℕ)) → AreAccepted profile start base blocks
        → (us : List UndoRecord) × AreUndos profile start base blocks us }
{}

/// A chain's last block has one undo record, and a chain one list of them. Transactions have one on any maps, but for the block's hash.
pub fn one_undo()
    ensures block { (profile : Profile) (start : Log) (base : ℕ) (block : List ℕ) (blocks : List (List ℕ)) (u v : UndoRecord)
        → IsUndoOf profile start base block blocks u → IsUndoOf profile start base block blocks v → u ≡ v }
    ensures chain { (profile : Profile) (start : Log) (base : ℕ) (blocks : List (List ℕ)) (us vs : List UndoRecord)
        → AreUndos profile start base blocks us → AreUndos profile start base blocks vs → us ≡ vs }
    ensures maps { (profile : Profile) (height : ℕ) (transactions : List Transaction) (maps : Maps) (u v : UndoRecord)
        → IsUndoByMaps profile height transactions maps u → IsUndoByMaps profile height transactions maps v → u.block ≡ v.block → u ≡ v }
{}

/// The record of a chain's next block by the maps is the one by the log.
pub fn undo_of_index()
    ensures { (profile : Profile) (start : Log) (base : ℕ) (block : List ℕ) (blocks : List (List ℕ))
        → refused_in profile (next_height base blocks) 1 (behind_coinbase (transactions_in block)) (log_of start base blocks) ≡ None
        → (u : UndoRecord) → u.block.0 ≡ hash_in block
        → IsUndoByMaps profile (next_height base blocks) (behind_coinbase (transactions_in block)) (index_maps profile start base blocks) u
        → IsUndoOf profile start base block blocks u }
{}

/// Undoing the last block of a chain by its record gives the index of the chain without it.
pub fn index_goes_back()
    ensures { (profile : Profile) (start : Log) (base : ℕ) (block : List ℕ) (blocks : List (List ℕ)) (u : UndoRecord)
        → refused_in profile (next_height base blocks) 1 (behind_coinbase (transactions_in block)) (log_of start base blocks) ≡ None
        → IsUndoOf profile start base block blocks u
        → undone u.ops u.expired (index_maps profile start base (block ∷ blocks)) ≡ index_maps profile start base blocks }
{}

/// What is left of a sound chain without its last block is sound, and a sound chain has as many records as blocks.
pub fn undoing_keeps_soundness()
    ensures below { (profile : Profile) (base tip : ℕ) (maps : Maps) (u : UndoRecord) (us : List UndoRecord)
        → IsSound profile base (suc tip) maps (u ∷ us) → IsSound profile base tip (undone u.ops u.expired maps) us }
    ensures height { (profile : Profile) (base tip : ℕ) (maps : Maps) (us : List UndoRecord)
        → IsSound profile base tip maps us → tip ≡ base + length us }
{}

/// A record that fits can be undone: each of its operations, from the last to the first, finds what it takes back, and
/// each expired coin belongs to the one row of the queue that is due behind the tip. Where no row is, none expired.
pub fn fit_allows_undoing()
    ensures operations { (profile : Profile) (tip : ℕ) (u : UndoRecord) (maps : Maps) → FitsState profile tip u maps
        → AreUndoable tip u.ops (with_restored u.expired maps) }
    ensures row { (profile : Profile) (tip row : ℕ) (maps : Maps) (held : HeldCoin) → due_height profile (suc tip) ≡ Some row
        → IsJustExpired profile tip maps held → is_named_at row (Some held.coin) ≡ true }
    ensures none { (profile : Profile) (tip : ℕ) (maps : Maps) (helds : List HeldCoin) → due_height profile (suc tip) ≡ None
        → AllByRecursion (IsJustExpired profile tip maps) helds → helds ≡ [] }
{}
