//! Laws of the machine. Each is the contract of a function that does nothing.

ghost use Rattle.std.specs.Prelude.{◌≡◌, List, ◌∷◌, ℕ};
ghost use Rattle.block_grammar.specs.Block.{block_hash};
ghost use Rattle.feed_frames.specs.Replies.{Reply};
ghost use Rattle.chain_commands.specs.Chain.{Chain};
ghost use Rattle.chain_commands.specs.Event.{Command, Connect, Disconnect, Event};
ghost use Rattle.chain_commands.specs.RunState.{RunState, chain_of};
ghost use Rattle.chain_commands.specs.Connecting.{IsValid};
ghost use Rattle.chain_commands.specs.Saving.{HasSaved};
ghost use Rattle.chain_commands.specs.Surviving.{Surviving, accepted_of};
ghost use Rattle.bridge_core.specs.Leaving.{IsBehind, Leaves, accepted_saves};
ghost use Rattle.bridge_core.specs.Step.{Step, Run};

/// The state, the event and the code of the reply decide the next state.
pub fn decided_step()
    ensures { (old new other : RunState) (event : Event) (reply answer : Reply)
        → Step old event reply new → Step old event answer other → reply.code ≡ answer.code → new ≡ other }
{}

/// What has a reply of code 0 is done, and nothing else changes the state.
pub fn done_or_left()
    ensures { (old new : RunState) (event : Event) (reply : Reply) → Step old event reply new → Leaves old event reply new }
{}

/// Commands leave one surviving chain.
pub fn one_surviving()
    ensures { (old new other : Chain) (commands : List Command) → Surviving old commands new → Surviving old commands other → new ≡ other }
{}

/// What a run leaves is the state with the accepted commands and saves, and its chain is the surviving chain of the commands. What a
/// run state says of its saves stays.
pub fn surviving_chain()
    ensures state { (old new : RunState) (events : List Event) (replies : List Reply)
        → Run old events replies new → IsBehind old (accepted_of events replies) (accepted_saves events replies) new }
    ensures chain { (old new : RunState) (events : List Event) (replies : List Reply)
        → Run old events replies new → Surviving (chain_of old) (accepted_of events replies) (chain_of new) }
    ensures saved { (old new : RunState) (events : List Event) (replies : List Reply)
        → Run old events replies new → HasSaved old → HasSaved new }
{}

/// Disconnecting is forgetting: a block that joined and is disconnected at once leaves the chain as though neither
/// command had come.
pub fn disconnecting_forgets()
    ensures { (old new : Chain) (block : List ℕ) (commands : List Command) → IsValid ⊥ old block
        → Surviving old (Connect block ∷ (Disconnect (block_hash block) ∷ commands)) new → Surviving old commands new }
{}
