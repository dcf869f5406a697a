//! Laws of events and refusals. Each is the contract of a function that does nothing.

ghost use Rattle.std.specs.Prelude.{◌≡◌, List, ℕ};
ghost use Rattle.std.specs.List.{AllByRecursion};
ghost use Rattle.chain_names.specs.Index.{index_maps};
ghost use Rattle.chain_names.specs.Sound.{IsSound};
ghost use Rattle.chain_names.specs.Undo.{UndoRecord};
ghost use Rattle.chain_names.specs.UndoOf.{AreUndos};
ghost use Rattle.chain_commands.specs.Chain.{Chain, height_of};
ghost use Rattle.feed_frames.specs.Frames.{Frame, IsFramed};
ghost use Rattle.chain_commands.specs.Event.{Command, Connect, Disconnect, Event, event_frame, last_kind};
ghost use Rattle.chain_commands.specs.RunState.{RunState, chain_of, IsFull};
ghost use Rattle.chain_commands.specs.Connecting.{Refusal, Refuses};
ghost use Rattle.chain_commands.specs.Disconnecting.{BackRefusal, RefusesBack};
ghost use Rattle.chain_commands.specs.Refusals.{IsFirst};
ghost use Rattle.chain_commands.specs.Saving.{SaveRefusal, HoldsSave, save_order};
ghost use Rattle.chain_commands.specs.Surviving.{Surviving, HasAllowedPayload, IsAcceptedChain};

/// Each whole frame is one event.
pub fn one_event()
    ensures some { (frame : Frame) → IsFramed last_kind frame → (event : Event) × (event_frame event ≡ frame) }
    ensures one { (event other : Event) → event_frame event ≡ event_frame other → event ≡ other }
{}

/// A command has one refusal at most, and so has a save: the order of the conditions decides.
pub fn one_refusal()
    ensures connect { (run : RunState) (bytes : List ℕ) (refusal other : Refusal)
        → Refuses (IsFull run (Connect bytes)) (chain_of run) bytes refusal → Refuses (IsFull run (Connect bytes)) (chain_of run) bytes other → refusal ≡ other }
    ensures disconnect { (run : RunState) (hash : List ℕ) (refusal other : BackRefusal)
        → RefusesBack (IsFull run (Disconnect hash)) (chain_of run) hash refusal → RefusesBack (IsFull run (Disconnect hash)) (chain_of run) hash other → refusal ≡ other }
    ensures save { (run : RunState) (refusal other : SaveRefusal)
        → IsFirst (HoldsSave run) save_order refusal → IsFirst (HoldsSave run) save_order other → refusal ≡ other }
{}

/// What survives commands on an accepted chain, as one without blocks is on its start list, is accepted, where no connect is
/// longer than a block may be; and so its index is sound, with the records that undo its blocks.
pub fn survivors_are_sound()
    ensures accepted { (old new : Chain) (commands : List Command) → AllByRecursion HasAllowedPayload commands → Surviving old commands new
        → IsAcceptedChain old → IsAcceptedChain new }
    ensures sound { (old new : Chain) (commands : List Command) (undos : List UndoRecord) → AllByRecursion HasAllowedPayload commands → Surviving old commands new
        → IsAcceptedChain old → AreUndos new.base.profile new.start new.base.height new.blocks undos
        → IsSound new.base.profile new.base.height (height_of new) (index_maps new.base.profile new.start new.base.height new.blocks) undos }
{}
