//! Laws of the definitions. Each is the contract of a function that does nothing.

ghost use Rattle.std.specs.Prelude.{◌≡◌, ℕ, suc, ◌+◌, ◌<◌, ◌≤◌, Bool, true, false, nat_eq, List, [], ◌∷◌, Option, Some, None};
ghost use Rattle.std.specs.List.{list_any};
ghost use Rattle.block_grammar.specs.Transaction.{Transaction};
ghost use Rattle.nmc_base.specs.declared.chain_ends.Profile.{Profile};
ghost use Rattle.nmc_base.specs.declared.hashes.OutPoint.{OutPoint};
ghost use Rattle.nmc_base.specs.Expiry.{due_height, expiry_depth, is_expired};
ghost use Rattle.chain_names.specs.declared.coin.Coin.{Coin};
ghost use Rattle.chain_names.specs.declared.coin.Coin.TheVariants.{Named};
ghost use Rattle.chain_names.specs.declared.coin.Item.{Item};
ghost use Rattle.name_script.specs.NameScript.{name_firstupdate, name_update};
ghost use Rattle.chain_names.specs.Points.{same_point, changed};
ghost use Rattle.chain_names.specs.Log.{Log, Make, behind_coinbase, transactions_in, log_of};
ghost use Rattle.chain_names.specs.Coins.{Maps, entry_of, history_of, unless_expired, maps_of};
ghost use Rattle.chain_names.specs.Verdict.{verdict};
ghost use Rattle.chain_names.specs.Meaning.{Means};
ghost use Rattle.chain_names.specs.Changes.{after_all, after_block, back_ops, cleared, first_refused, undo_ops, unless_named_at};
ghost use Rattle.chain_names.specs.Index.{index_maps, next_height, refused_in};
ghost use Rattle.chain_names.specs.Start.{IsStart};
ghost use Rattle.chain_names.specs.Tables.{is_named_at, queue_of};

/// The maps follow the log: a block without a refusal changes them by its verdicts, and then the coins that are expired
/// in the next block go.
pub fn index_follows()
    ensures { (profile : Profile) (start : Log) (base : ℕ) (block : List ℕ) (blocks : List (List ℕ))
        → refused_in profile (next_height base blocks) 1 (behind_coinbase (transactions_in block)) (log_of start base blocks) ≡ None
        → index_maps profile start base (block ∷ blocks)
        ≡ after_block profile (next_height base blocks) (behind_coinbase (transactions_in block)) (index_maps profile start base blocks) }
{}

/// A chain may start with no makes.
pub fn starts_empty()
    ensures { (profile : Profile) (base : ℕ) → IsStart profile base [] }
{}

/// The registration of a value that opens a name begins in its block, and one that updates a name goes on with the
/// registration of the value before.
pub fn registrations()
    ensures opens { (log : Log) (point : OutPoint) (name rand value : List ℕ) (height : ℕ) (entry : Item)
        → entry_of (history_of (Make point (name_firstupdate name rand value) height ∷ log) name) ≡ Some entry → entry.registered ≡ height }
    ensures updates { (log : Log) (point : OutPoint) (name value : List ℕ) (height : ℕ) (before entry : Item)
        → entry_of (history_of log name) ≡ Some before
        → entry_of (history_of (Make point (name_update name value) height ∷ log) name) ≡ Some entry → entry.registered ≡ before.registered }
{}

/// The refusal of a block's transactions by the log, searched anew for each, is the one by the maps.
pub fn refusals_agree()
    ensures { (profile : Profile) (height index : ℕ) (transactions : List Transaction) (log : Log)
        → refused_in profile height index transactions log ≡ first_refused profile height index transactions (maps_of profile log height) }
{}

/// Undoing the operations of transactions without a refusal, from the last to the first, gives the maps before them.
pub fn undoing_restores()
    ensures { (profile : Profile) (height index : ℕ) (transactions : List Transaction) (maps : Maps)
        → first_refused profile height index transactions maps ≡ None
        → back_ops (undo_ops profile height transactions maps) (after_all profile height transactions maps) ≡ maps }
{}

/// What a verdict that isn't a refusal says of the transaction and of the maps.
pub fn verdict_meaning()
    ensures { (profile : Profile) (maps : Maps) (height : ℕ) (t : Transaction) → Means profile maps height t (verdict profile maps height t) }
{}

/// The expiry depth is never 0, never falls from one height to the next, and rises by at most one. So what is expired
/// stays expired.
pub fn expiry_laws()
    ensures positive { (profile : Profile) (height : ℕ) → 0 < expiry_depth profile height }
    ensures never_falls { (profile : Profile) (height : ℕ) → expiry_depth profile height ≤ expiry_depth profile (suc height) }
    ensures by_one { (profile : Profile) (height : ℕ) → expiry_depth profile (suc height) ≤ suc (expiry_depth profile height) }
    ensures stays { (profile : Profile) (made height : ℕ) → is_expired profile made height ≡ true → is_expired profile made (suc height) ≡ true }
{}

/// Of the live coins at a height, those that are expired at the next one are the names that were given a value at one
/// height: the one that is due. Where none is due, none expires. Going over all outpoints of that row takes just these
/// coins.
pub fn due_coins()
    ensures row { (profile : Profile) (height row : ℕ) (coin : Option Coin) → due_height profile (suc height) ≡ Some row
        → unless_expired profile height coin ≡ coin → unless_expired profile (suc height) coin ≡ unless_named_at row coin }
    ensures none { (profile : Profile) (height : ℕ) (coin : Option Coin) → due_height profile (suc height) ≡ None
        → unless_expired profile height coin ≡ coin → unless_expired profile (suc height) coin ≡ coin }
    ensures cleared { (height : ℕ) (points : List OutPoint) (coins : OutPoint → Option Coin)
        → ((point : OutPoint) → is_named_at height (coins point) ≡ true → list_any (same_point point) points ≡ true)
        → cleared height points coins ≡ (λ point. unless_named_at height (coins point)) }
{}

/// The queue follows the coins: a name's coin that is made where none is, one that is spent, and a coin that isn't queued.
pub fn queue_follows()
    ensures more { (coins : OutPoint → Option Coin) (point : OutPoint) (name : List ℕ) (height : ℕ) → coins point ≡ None
        → queue_of (changed same_point coins point (Some (Named name height)))
        ≡ changed nat_eq (queue_of coins) height (changed same_point (queue_of coins height) point true) }
    ensures less { (coins : OutPoint → Option Coin) (point : OutPoint) (name : List ℕ) (height : ℕ) → coins point ≡ Some (Named name height)
        → queue_of (changed same_point coins point None)
        ≡ changed nat_eq (queue_of coins) height (changed same_point (queue_of coins height) point false) }
    ensures still { (coins : OutPoint → Option Coin) (point : OutPoint) (coin : Option Coin)
        → ((height : ℕ) → is_named_at height (coins point) ≡ false) → ((height : ℕ) → is_named_at height coin ≡ false)
        → queue_of (changed same_point coins point coin) ≡ queue_of coins }
{}
