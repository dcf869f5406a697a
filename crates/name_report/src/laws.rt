//! Laws of reports. Each is the contract of a function that does nothing.

ghost use Rattle.std.specs.Prelude.{◌≡◌, List, ℕ};
ghost use Rattle.name_report.specs.Counts.{AreCounts};
ghost use Rattle.name_report.specs.Report.{AreNamesOf, IsReport};
ghost use Rattle.name_report.specs.Text.{Reported};
ghost use Rattle.name_report.specs.declared.counting.NameCounts.{NameCounts};
ghost use Rattle.chain_names.specs.declared.coin.Item.{Item};

/// There is one list at most of the names that have an entry, in order, and so one report.
pub fn one_report()
    ensures names { (histories : List ℕ → List Item) (a b : List (List ℕ)) → AreNamesOf histories a → AreNamesOf histories b → a ≡ b }
    ensures text { (what : Reported) (a b : List ℕ) → IsReport what a → IsReport what b → a ≡ b }
{}

/// There is one pair of counts at most of what is reported.
pub fn one_count()
    ensures { (what : Reported) (a b : NameCounts) → AreCounts what a → AreCounts what b → a ≡ b }
{}
