//! Laws of what an index takes. Each is the contract of a function that does nothing.

ghost use Rattle.std.specs.Prelude.{◌≡◌, ◌↔◌, ℕ, ◌≤◌, List, ◌∷◌, ◌++◌, length};
ghost use Rattle.nmc_base.specs.declared.hashes.Hash32.{Hash32};
ghost use Rattle.nmc_base.specs.declared.limits.TheConstants.{LONGEST_BLOCK};
ghost use Rattle.chain_state.specs.Chain.{Indexed, SameIndex, StagedIndex};
ghost use Rattle.chain_commands.specs.Chain.{Chain};
ghost use Rattle.chain_commands.specs.Event.{Command, Connect, Disconnect};
ghost use Rattle.chain_commands.specs.RunState.{after_command, after_commands};
ghost use Rattle.index_commands.specs.Standing.{StandsFor};
ghost use Rattle.index_commands.specs.Allowed.{IsAllowed, AreAllowed};
ghost use Rattle.index_commands.specs.ByIndex.{TakesBlock, MayLose};
ghost use Rattle.index_commands.specs.Taking.{IsTakenBy, TakesCommand, LeadsTo, AreTaken};

/// One thing comes of a command that an index takes, up to what its tables have room for, and nothing of one that it doesn't
/// take. Bytes and a hash that are staged are those of commands that it takes.
pub fn one_result()
    ensures one { (a b x y : Indexed) (command : Command) → SameIndex a b → TakesCommand a command x → TakesCommand b command y → SameIndex x y }
    ensures taken { (index new : Indexed) (command : Command) → TakesCommand index command new → IsTakenBy index command }
    ensures alike { (a b : Indexed) (command : Command) → SameIndex a b → IsTakenBy a command → IsTakenBy b command }
    ensures staged { (index : Indexed) (staged : StagedIndex) (bytes : List ℕ) → length bytes ≤ LONGEST_BLOCK → TakesBlock index bytes staged
        → IsTakenBy index (Connect bytes) }
    ensures staged_back { (index staged : Indexed) (hash : Hash32) → length hash.0 ≡ 32 → MayLose index hash staged → IsTakenBy index (Disconnect hash.0) }
{}

/// Commands one after the other lead from one index to one, up to what tables have room for. Each was taken at its turn, and so is
/// one more that the last index takes.
pub fn one_lead()
    ensures one { (a b x y : Indexed) (commands : List Command) → SameIndex a b → LeadsTo a commands x → LeadsTo b commands y → SameIndex x y }
    ensures alike { (a b x y : Indexed) (commands : List Command) → SameIndex a b → SameIndex y x → LeadsTo a commands x → LeadsTo b commands y }
    ensures taken { (first index : Indexed) (commands : List Command) → LeadsTo first commands index → AreTaken first commands }
    ensures next { (first index : Indexed) (commands : List Command) (command : Command) → LeadsTo first commands index → IsTakenBy index command
        → AreTaken first (command ∷ commands) }
{}

/// An index takes just the commands that are allowed on a chain that it stands for, and what comes of one stands for the chain
/// behind it.
pub fn commands_follow()
    ensures just { (index : Indexed) (chain : Chain) (command : Command) → StandsFor index chain → IsTakenBy index command ↔ IsAllowed chain command }
    ensures stands { (index new : Indexed) (chain : Chain) (command : Command) → StandsFor index chain → TakesCommand index command new
        → StandsFor new (after_command chain command) }
{}

/// The same of commands one after the other.
pub fn commands_lead()
    ensures allowed { (first index : Indexed) (chain : Chain) (commands : List Command) → StandsFor first chain → LeadsTo first commands index
        → AreAllowed chain commands }
    ensures stands { (first index : Indexed) (chain : Chain) (commands : List Command) → StandsFor first chain → LeadsTo first commands index
        → StandsFor index (after_commands chain commands) }
    ensures taken { (first : Indexed) (chain : Chain) (commands : List Command) → StandsFor first chain → AreAllowed chain commands → AreTaken first commands }
{}

/// Commands are allowed just where those that came first are, and the later ones are on the chain behind them.
pub fn allowed_in_two_parts()
    ensures { (first : Chain) (later earlier : List Command) → AreAllowed first (later ++ earlier) ↔ (AreAllowed first earlier × AreAllowed (after_commands first earlier) later) }
{}
