//! Laws of crashes. Each is the contract of a function that does nothing.

ghost use Rattle.std.specs.Prelude.{◌≡◌, ◌⊎◌, ℕ, ◌≤◌, List, IsTrue};
ghost use Rattle.disk_model.specs.FileState.{IsFileImage, IsSettled};
ghost use Rattle.disk_model.specs.Moments.{Files, Moments, EachMoment, IsImage, LeftSince, clock};
ghost use Rattle.disk_model.specs.Changes.{Changes, AfterSync, KeepsSettled};
ghost use Rattle.disk_model.specs.DiskSeen.{file_in, bytes_in};

use crate::disk::Disk;

/// A fact that a value tells about the files of a disk. Contracts give its meaning; it is never called.
pub trait OfFiles {
    ghost use Rattle.disk_model.specs.Moments.{Files};

    ghost holds: { Self → Files → Type 0 };
}

/// The law of moments. Where a fact holds of the files at each moment from an old one to a new one, time did
/// not run back, each image that a crash since an earlier time may have left then it may have left still, and
/// it may have left no other but an image of files that have the fact.
pub fn images_of_moments<P: OfFiles>(fact: &P)
    ensures later { (old new : Moments) → EachMoment (P.holds fact.now) old new → clock old ≤ clock new }
    ensures kept { (old new : Moments) (time : ℕ) (image : ℕ → List ℕ)
        → EachMoment (P.holds fact.now) old new → LeftSince old time image → LeftSince new time image }
    ensures nothing_else { (old new : Moments) (time : ℕ) (image : ℕ → List ℕ)
        → EachMoment (P.holds fact.now) old new → LeftSince new time image
        → LeftSince old time image ⊎ ((files : Files) × P.holds fact.now files × IsImage files image) }
{
    let _ = fact;
}

/// The law of images. What reads give is one of the images that a crash now may leave, and of a file that
/// is settled, as after a sync, it is the only one.
pub fn images_of_a_disk<D: Disk>(disk: &D)
    ensures reads { IsTrue D.tells → IsImage (D.seen disk.now).moments.now (bytes_in (D.seen disk.now)) }
    ensures settled { (file : ℕ) (image : List ℕ)
        → IsSettled (file_in (D.seen disk.now) file) → IsFileImage (file_in (D.seen disk.now) file) image
        → image ≡ bytes_in (D.seen disk.now) file }
{
    let _ = disk;
}

/// The law of syncs. A sync of one file, done or failed, keeps all that was settled of each. Where that is kept, no image is
/// added: what a crash may leave then, it may have left before.
pub fn images_after_a_sync()
    ensures kept { (file : ℕ) (old new : Files) → Changes file AfterSync old new → KeepsSettled old new }
    ensures none_more { (old new : Files) (image : ℕ → List ℕ) → KeepsSettled old new → IsImage new image → IsImage old image }
{}
