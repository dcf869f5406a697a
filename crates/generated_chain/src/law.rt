//! Laws of the definitions. Each is the contract of a function that does nothing.

ghost use Rattle.std.specs.Prelude.{◌≡◌, ℕ, ◌+◌, ◌%◌, ◌<◌, [], ◌∷◌, ◌++◌, codes};
ghost use Rattle.dns_message.specs.Query.{ReadsAs, Asks};
ghost use Rattle.generated_chain.specs.Draws.{drawn, number_drawn, state_behind};
ghost use Rattle.generated_chain.specs.Events.{events_of, generated_events, round_at};
ghost use Rattle.generated_chain.specs.Texts.{name_text, query_text, question_for, value_text};

/// The events of a run are those of its rounds, one after the other.
pub fn round_after_round()
    ensures none { (seed : ℕ) → generated_events 0 seed ≡ [] }
    ensures next { (blocks seed : ℕ) → generated_events (blocks + 1) seed ≡ generated_events blocks seed ++ events_of (round_at seed blocks) }
{}

/// Each query is a standard query of one question, with RD and without an OPT record, for the address of the name below `bit`.
pub fn queries_ask()
    ensures { (height number : ℕ) → number < 64 → ReadsAs (query_text height number) (Asks (question_for (height % 65536) number)) }
{}

/// Some draws and texts, written out.
pub fn small_draws_and_texts()
    ensures states { (state_behind 7 0 ≡ 7) × (state_behind 0 1 ≡ 1442695040888963407) × (state_behind 0 2 ≡ 1876011003808476466) }
    ensures numbers { (drawn (state_behind 7 1) ≡ 1059165278) × (number_drawn (state_behind 7 1) ≡ 30) × (number_drawn (state_behind 7 2) ≡ 63) }
    ensures name { (name_text 0 ≡ codes "d/n0") × (name_text 7 ≡ codes "d/n7") × (name_text 63 ≡ codes "d/n63") }
    ensures value { (value_text 1 ≡ codes "{\"ip\":\"10.0.0.1\"}") × (value_text 300 ≡ codes "{\"ip\":\"10.0.1.44\"}") × (value_text 65536 ≡ codes "{\"ip\":\"10.0.0.0\"}") }
    ensures query { query_text 65794 30 ≡ 1 ∷ 2 ∷ 1 ∷ 0 ∷ 0 ∷ 1 ∷ 0 ∷ 0 ∷ 0 ∷ 0 ∷ 0 ∷ 0 ∷ 3 ∷ 110 ∷ 51 ∷ 48 ∷ 3 ∷ 98 ∷ 105 ∷ 116 ∷ 0 ∷ 0 ∷ 1 ∷ 0 ∷ 1 ∷ [] }
{}
