//! Laws of the files: that they are of one kind, have one first damage, and what drafts and images since a moment stand for.

ghost use Rattle.std.specs.Prelude.{◌≡◌, ◌⊎◌, ◌-◌, ℕ, List, [], ◌∷◌, ◌++◌, take};
ghost use Rattle.disk_model.specs.Moments.{Files, Moments, EachMoment, LeftSince};
ghost use Rattle.disk_model.specs.Changes.{LeavesOthers};
ghost use Rattle.disk_model.specs.DiskSeen.{DiskSeen, bytes_in};
ghost use Rattle.gate_journal.specs.Gate.{record_text};
ghost use Rattle.chain_commands.specs.Event.{Command};
ghost use Rattle.chain_commands.specs.RunState.{RunState, accepted, saved_chain};
ghost use Rattle.chain_commands.specs.Saving.{IsTextOf};
ghost use Rattle.undo_records.specs.declared.version.Version.{Version};
ghost use Rattle.image_grammar.specs.Image.{HasText};
ghost use Rattle.index_commands.specs.Records.{record_of};
ghost use Rattle.image_files.specs.SavingIndex.{IsTextOfIndex};
ghost use Rattle.name_store.specs.Drafting.{Drafting, IsDraftOf, IsDraftOn, IsDraftFor};
ghost use Rattle.name_store.specs.Growing.{IsAsLong, IsLonger};
ghost use Rattle.name_store.specs.Header.{IsUninitialised};
ghost use Rattle.name_store.specs.Damage.{IsDamaged};
ghost use Rattle.name_store.specs.Stands.{Bytes, IsRunState, Stands};
ghost use Rattle.name_store.specs.Stored.{Stored, StandsFor, EachStandsFor, IsOn, area_file};

use crate::store::Store;
use disk_model::{OfFiles, images_of_moments};

/// The law of what files are: of uninitialised, damaged, and standing for a run state, they are at most one.
pub fn one_kind_of_files()
    ensures uninitialised_or_standing { (files : Bytes) (run : RunState) → IsUninitialised (files 0) → Stands files run → ⊥ }
    ensures uninitialised_or_damaged { (files : Bytes) (file at : ℕ) → IsUninitialised (files 0) → IsDamaged files file at → ⊥ }
    ensures damaged_or_standing { (files : Bytes) (file at : ℕ) (run : RunState) → IsDamaged files file at → Stands files run → ⊥ }
{}

/// The law of damage: files have at most one first damage, in one file at one place.
pub fn one_damage()
    ensures { (files : Bytes) (file at other place : ℕ)
        → IsDamaged files file at → IsDamaged files other place → (file ≡ other) × (at ≡ place) }
{}

/// The law of what is saved: whichever version the text of a run state is taken for, its image is one that is read again.
pub fn saved_is_read_again()
    ensures { (run : RunState) → IsRunState run → (version : Version) (is : IsTextOf version (saved_chain run) run.text) → HasText is.is_text.image }
{}

/// The law of the drafts of saves in slices. A store that is as long as before has each draft that it had, and its draft on the disk is on it
/// still. So it is behind a command that made its area longer, where no other file has changed. Of the run state, the command is one of
/// those that were accepted since the beginning.
pub fn drafts_stay()
    ensures of_as_long { (old new : Stored) (drafting : Drafting) → IsAsLong old new → IsDraftOf old drafting → IsDraftOf new drafting }
    ensures as_long { (old new : Stored) (drafting : Drafting) (image : List ℕ) (files : Files) → IsAsLong old new → IsDraftOn old drafting image files → IsDraftOn new drafting image files }
    ensures of_longer { (command : Command) (old new : Stored) (drafting : Drafting) → IsLonger command old new → IsDraftOf old drafting → IsDraftOf new drafting }
    ensures longer { (command : Command) (old new : Stored) (drafting : Drafting) (image : List ℕ) (before after : DiskSeen) → IsLonger command old new → IsOn old before.moments.now
        → LeavesOthers (area_file old) before.moments.now after.moments.now
        → take (new.area - 1) (bytes_in after (area_file old)) ≡ take (old.area - 1) (bytes_in before (area_file old)) ++ record_text (record_of command)
        → IsDraftOf old drafting → IsDraftOn old drafting image before.moments.now → IsDraftOn new drafting image after.moments.now }
    ensures begun { (store : Stored) (run : RunState) (image : List ℕ) → StandsFor store run → IsTextOfIndex store.index image → IsDraftFor run [] run.since store.area image }
    ensures accepted { (run : RunState) (newer older : List Command) (from : ℕ) (image : List ℕ) (command : Command) → IsDraftFor run newer older from image
        → IsDraftFor (accepted run command) (command ∷ newer) older from image }
{}

/// At a moment whatever a crash leaves stands for each run state that the store stands for.
impl OfFiles for Store {
    ghost use Rattle.name_store.specs.Stored.{EachStandsFor};

    ghost holds = { EachStandsFor };
}

/// The law of images since a moment. Where at each moment since an old one whatever a crash leaves stands for what the store stands
/// for, as while commands are refused and questions answered, an image that a crash since a time may have left it may have left up
/// to the old moment, or it stands for that.
pub fn images_of_a_store(store: &Store)
    ensures { (old new : Moments) (time : ℕ) (image : Bytes) → EachMoment (EachStandsFor store.now) old new → LeftSince new time image
        → LeftSince old time image ⊎ ((run : RunState) → StandsFor store.now run → Stands image run) }
{
    images_of_moments(store);
}
