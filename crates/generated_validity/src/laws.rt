//! Laws of generated chains. Each is the contract of a function that does nothing.

ghost use Rattle.std.specs.Prelude.{◌≡◌, ◌≢◌, ℕ, ◌⊎◌, suc, ◌<◌, ◌≤◌, List, length};
ghost use Rattle.nmc_base.specs.declared.limits.TheConstants.{LONGEST_BLOCK};
ghost use Rattle.block_grammar.specs.Block.{block_hash};
ghost use Rattle.feed_frames.specs.Replies.{Reply};
ghost use Rattle.chain_commands.specs.Event.{Command, Connect, Disconnect, Do, Save};
ghost use Rattle.chain_commands.specs.Reply.{no_memory_reply};
ghost use Rattle.chain_commands.specs.RunState.{RunState, IsFull, accepted, area_of, chain_of, record_length};
ghost use Rattle.chain_commands.specs.Connecting.{Connects, IsValid};
ghost use Rattle.chain_commands.specs.Disconnecting.{Disconnects};
ghost use Rattle.chain_commands.specs.Saving.{HasLongText, Saves, longest_image, most_selections};
ghost use Rattle.generated_chain.specs.Events.{events_of, generated_events, round_at};
ghost use Rattle.generated_validity.specs.Carried.{HaveOneTxid};
ghost use Rattle.generated_validity.specs.Blocks.{block_behind};
ghost use Rattle.generated_validity.specs.Causes.{HasCause, Leads, chain_behind};
ghost use Rattle.generated_validity.specs.Lengths.{longest_behind, longest_record, most_blocks, most_requests};

/// Each block of a generated chain is valid on those before it, or of these and itself two carry name transactions that differ and have
/// one txid.
pub fn blocks_are_valid()
    ensures { (seed blocks : ℕ) → suc blocks < 65536 → HaveOneTxid seed (suc blocks) ⊎ IsValid ⊥ (chain_behind seed blocks) (block_behind seed blocks) }
{}

/// The events of a run lead from the chain of its first blocks to that of more: those of a round by one, and those of so many rounds to so many.
pub fn events_lead_on()
    ensures round { (seed blocks most : ℕ) → blocks < most → Leads seed most blocks (events_of (round_at seed blocks)) (suc blocks) }
    ensures rounds { (seed blocks most : ℕ) → blocks ≤ most → Leads seed most 0 (generated_events blocks seed) blocks }
{}

/// A command or a save of a run that is refused, and for which memory isn't wanting, has a cause: a full area, a long image, or two txids.
pub fn refusals_have_causes()
    ensures connect { (seed blocks : ℕ) (old new : RunState) (reply : Reply) → suc blocks < 65536 → chain_of old ≡ chain_behind seed blocks
        → reply.code ≢ 0 → reply.code ≢ no_memory_reply.code → Connects old (block_behind seed blocks) reply new
        → HasCause seed (suc blocks) old (Do (Connect (block_behind seed blocks))) }
    ensures disconnect { (seed blocks most : ℕ) (old new : RunState) (reply : Reply) → chain_of old ≡ chain_behind seed (suc blocks)
        → reply.code ≢ 0 → reply.code ≢ no_memory_reply.code → Disconnects old (block_hash (block_behind seed blocks)) reply new
        → HasCause seed most old (Do (Disconnect (block_hash (block_behind seed blocks)))) }
    ensures save { (seed most : ℕ) (old new : RunState) (reply : Reply) → old.selections < most_selections
        → reply.code ≢ 0 → reply.code ≢ no_memory_reply.code → Saves old reply new → HasCause seed most old Save }
{}

/// Of a run of at most 10,000 blocks no index has a text that is longer than an image may be, and no block is longer than one may be, unless
/// two txids are one. An area on the longest image has room for 60,000 records, each of which is that of a block at most.
pub fn lengths_are_small()
    ensures image { (seed blocks : ℕ) → blocks ≤ most_blocks → HaveOneTxid seed blocks ⊎ ¬ (HasLongText longest_image (chain_behind seed blocks)) }
    ensures blocks { (seed blocks : ℕ) → blocks ≤ most_blocks → HaveOneTxid seed blocks ⊎ ((below : ℕ) → below < blocks → length (block_behind seed below) ≤ LONGEST_BLOCK) }
    ensures room { (run : RunState) (command : Command) (requests : ℕ) → requests < most_requests → area_of run ≤ longest_behind requests → record_length command ≤ longest_record
        → ¬ (IsFull run command) }
    ensures area { (run : RunState) (command : Command) (requests : ℕ) → area_of run ≤ longest_behind requests → record_length command ≤ longest_record
        → area_of (accepted run command) ≤ longest_behind (suc requests) }
    ensures saved { (old new : RunState) (reply : Reply) → reply.code ≡ 0 → Saves old reply new → area_of new ≤ longest_behind 0 }
{}
