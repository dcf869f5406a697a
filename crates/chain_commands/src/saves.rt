//! Laws of saves. Each is the contract of a function that does nothing.

ghost use Rattle.std.specs.Prelude.{◌≡◌, ℕ, ◌<◌, ◌≤◌, List, ◌++◌, length};
ghost use Rattle.undo_records.specs.declared.version.Version.{Version};
ghost use Rattle.undo_records.specs.declared.version.Version.TheVariants.{Two};
ghost use Rattle.feed_frames.specs.Replies.{Reply};
ghost use Rattle.chain_commands.specs.Chain.{Chain};
ghost use Rattle.chain_commands.specs.Event.{Command};
ghost use Rattle.chain_commands.specs.RunState.{RunState, accepted, after_commands, chain_of, on_base, saved_chain};
ghost use Rattle.chain_commands.specs.Saving.{HasSaved, IsTextOf, Saves, longest_image, most_selections, saved_by};

/// The index of a chain has one text at most in each version.
pub fn one_text()
    ensures { (version : Version) (chain : Chain) (text other : List ℕ) → IsTextOf version chain text → IsTextOf version chain other → text ≡ other }
{}

/// The chain of a run state is that of all its commands, those since behind those that are saved. A save leaves it, and holds it.
pub fn saves_leave_the_chain()
    ensures all { (run : RunState) → chain_of run ≡ after_commands (on_base run.base run.start) (run.since ++ run.saved) }
    ensures left { (run : RunState) (text : List ℕ) → chain_of (saved_by run text) ≡ chain_of run }
    ensures held { (run : RunState) (text : List ℕ) → saved_chain (saved_by run text) ≡ chain_of run }
    ensures answered { (old new : RunState) (reply : Reply) → Saves old reply new → chain_of new ≡ chain_of old }
{}

/// What a run state says of its saves holds behind each command that is accepted, and behind each save, whatever it is answered.
pub fn saved_texts_stay()
    ensures command { (run : RunState) (command : Command) → HasSaved run → HasSaved (accepted run command) }
    ensures text { (run : RunState) (text : List ℕ) → run.selections < most_selections → IsTextOf Two (chain_of run) text → length text ≤ longest_image
        → HasSaved (saved_by run text) }
    ensures answered { (old new : RunState) (reply : Reply) → Saves old reply new → HasSaved old → HasSaved new }
{}
