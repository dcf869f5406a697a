//! Laws of the answers that are kept, and of what is kept of a reply. Each is the contract of a function that does nothing.

ghost use Rattle.std.specs.Prelude.{◌≡◌, ℕ, ◌≤◌, ◌<◌, ◌^◌, Bool};
ghost use Rattle.dns_message.specs.Replies.{Contents, reply_text};
ghost use Rattle.dns_message.specs.declared.numbers.TheConstants.{GREATEST_LIMIT};
ghost use Rattle.import_expand.specs.Sources.{Live};
ghost use Rattle.bit_resolver.specs.declared.zone.Zone.{Zone};
ghost use Rattle.kept_answers.specs.Answering.{Answering, AreRight, none_kept, outdated};
ghost use Rattle.kept_answers.specs.Kept.{Kept, IsKept, AskAlike, reply_with, kept_reply, kept_text};
ghost use Rattle.kept_answers.specs.declared.limits.TheConstants.{LONGEST_KEPT, MOST_KEPT};

/// Each reply to a question is the one from what is kept of it.
pub fn replies_are_kept()
    ensures { (limit : ℕ) (t : Contents) (rcode : ℕ) (aa : Bool)
        → reply_text limit t rcode aa ≡ reply_with t.query (kept_reply limit t rcode aa) }
{}

/// What is kept of a reply with an RCODE of four bits has a text.
pub fn kept_replies_fit()
    ensures { (limit : ℕ) (t : Contents) (rcode : ℕ) (aa : Bool) → limit ≤ GREATEST_LIMIT → rcode < 2 ^ 4
        → IsKept (kept_reply limit t rcode aa) }
{}

/// A text is that of one kept reply at most.
pub fn one_kept()
    ensures { (j k : Kept) → IsKept j → IsKept k → kept_text j ≡ kept_text k → j ≡ k }
{}

/// Who asks the same, and is answered the same, has the same kept of the reply: what is kept for one serves the other.
pub fn alike()
    ensures { (limit : ℕ) (t u : Contents) (rcode : ℕ) (aa : Bool) → AskAlike t.query u.query
        → t.answer ≡ u.answer → t.authority ≡ u.authority → kept_reply limit t rcode aa ≡ kept_reply limit u rcode aa }
{}

/// Where none is kept, all are right, whatever is served; and after a command is accepted, whatever is served then.
pub fn kept_answers_are_right()
    ensures none { (live : Live) (z : Zone) → AreRight live z none_kept }
    ensures outdated { (live other : Live) (z w : Zone) (answers : Answering) → AreRight live z answers → AreRight other w (outdated answers) }
{}

/// The numbers that definitions cite by their names: how many answers are kept, and how long the records of one may be.
pub fn numbers_of_kept_answers()
    ensures most { MOST_KEPT ≡ 1024 }
    ensures longest { LONGEST_KEPT ≡ 1232 }
{}
