//! Laws of the definitions. Each is the contract of a function that does nothing.

ghost use Rattle.std.specs.Prelude.{◌≡◌, List, ℕ};
ghost use Rattle.chain_commands.specs.Chain.{Chain};
ghost use Rattle.listing_sessions.specs.Listing.{IsListing};
ghost use Rattle.pin_views.specs.declared.rows.Row.{Row};

/// A chain has one listing.
pub fn one_listing()
    ensures { (chain : Chain) (a b : List (List ℕ × Row)) → IsListing chain a → IsListing chain b → a ≡ b }
{}
