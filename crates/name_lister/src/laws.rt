//! Laws of the machine with sessions and a save in slices. Each is the contract of a function that does nothing.

ghost use Rattle.std.specs.Prelude.{◌≡◌, ℕ, List, None, Some, ◌++◌, drop, length};
ghost use Rattle.chain_commands.specs.Chain.{Chain};
ghost use Rattle.feed_frames.specs.Replies.{Reply};
ghost use Rattle.listing_sessions.specs.Listing.{IsListing};
ghost use Rattle.listing_sessions.specs.Sessions.{session};
ghost use Rattle.name_lister.specs.Accepting.{GoesOn, with_accepted};
ghost use Rattle.name_lister.specs.Event.{ListEvent, Begin, Slice};
ghost use Rattle.name_lister.specs.Pinning.{StaysOpen, pages_of, pages_told};
ghost use Rattle.name_lister.specs.Saver.{begun_reply, selected_reply};
ghost use Rattle.name_lister.specs.Step.{ListState, ListStep, ListRun};
ghost use Rattle.name_lister.specs.declared.leavings.TheConstants.{LET_GO_AT_ONCE};
ghost use Rattle.pin_views.specs.declared.rows.Row.{Row};

/// No command is lost, and none is made up: behind a run the state has the commands that it had before and those that were accepted,
/// in their order, whatever sessions and saves, whole or in slices, come between.
pub fn accepted_commands()
    ensures { (size : ℕ) (old new : ListState) (events : List ListEvent) (replies : List Reply) → ListRun size old events replies new
        → new.run.since ++ new.run.saved ≡ with_accepted (old.run.since ++ old.run.saved) events replies }
{}

/// A save in slices saves what had been accepted when it began, whatever comes between its slices; what is accepted between them stands
/// behind it.
pub fn saves_in_slices()
    ensures { (size asked number : ℕ) (old begun mid new : ListState) (events : List ListEvent) (replies : List Reply)
        → ListStep size old Begin begun_reply begun → ListRun size begun events replies mid → GoesOn events replies
        → ListStep size mid (Slice asked) (selected_reply number) new
        → (new.run.saved ≡ old.run.since ++ old.run.saved) × (new.run.since ++ new.run.saved ≡ with_accepted (old.run.since ++ old.run.saved) events replies) }
{}

/// An open session gives, page by page, what is left of the listing of the chain that it was opened on, each name once and in order,
/// whatever connects, disconnects, saves, queries and other sessions come between its pages.
pub fn pinned_pages()
    ensures { (size number position : ℕ) (chain : Chain) (rows : List (List ℕ × Row)) (old new : ListState) (events : List ListEvent) (replies : List Reply)
        → IsListing chain rows → old.sessions number ≡ Some (session chain position) → StaysOpen number events → ListRun size old events replies new
        → pages_told number events replies ≡ pages_of chain size (drop position rows) (length (pages_told number events replies)) }
{}

/// At each event at most five parts are let go of.
pub fn numbers_of_leavings()
    ensures parts { LET_GO_AT_ONCE ≡ 5 }
{}
