//! A law: each reading of an image comes to an end.

ghost use Rattle.std.specs.Prelude.{◌≡◌, ◌≢◌, ℕ, ◌<◌, List, Ok};
ghost use Rattle.image_grammar.specs.Stages.{Standing, in_names, step_from};
ghost use Rattle.image_grammar.specs.Work.{work_left};

/// A reading comes to an end: a step reads a byte at least, or leads on to where fewer steps read none. Only behind the last
/// name it does nothing.
pub fn steps_end()
    ensures { (s : Standing) (bytes : List ℕ) (x : Standing × List ℕ) → s.stage ≢ in_names 0 → step_from s bytes ≡ Ok x → work_left x.0.stage x.1 < work_left s.stage bytes }
{}
