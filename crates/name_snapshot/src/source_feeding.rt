//! Feeding what a source gives to the reader of snapshots.
ghost use Rattle.std.specs.Prelude.{◌≡◌, ◌+◌, ◌<◌, ◌^◌, ℕ, List, [], length};
ghost use Rattle.name_snapshot.specs.Feeding.{HasRead};
ghost use Rattle.name_snapshot.specs.SourceFeeding.{FeedsPiece, FeedsSource};

use crate::feed_fault::FeedFault;
use crate::feeding::Snapshot;
use byte_io::Source;

/// So many bytes at most are read at once.
const PIECE: usize = 65536;

/// Reads the next piece of the source by way of the buffer, and feeds it. Says how many bytes it had: none at the end.
fn feed_piece<S: Source>(
    snapshot: &mut Snapshot,
    source: &mut S,
    buffer: &mut [u8],
) -> Result<usize, FeedFault>
    requires room { 0 < length buffer.old }
    requires short { snapshot.old.fed + length buffer.old < 2 ^ 64 }
    ensures feeds { (text : List ℕ) → HasRead text snapshot.old → FeedsPiece text (length buffer.old) (S.seen source.old) (S.seen source.new) snapshot.old snapshot.new result }
    ensures base { snapshot.new.base ≡ snapshot.old.base }
{
    let count = source.read(buffer)?;
    if count == 0 {
        return Ok(0);
    }
    snapshot.piece(&buffer[..count])?;
    Ok(count)
}

/// Feeds the source to a reader to which nothing was fed yet, up to its end.
pub(crate) fn feed_source<S: Source>(
    snapshot: &mut Snapshot,
    source: &mut S,
    limit: u64,
) -> Result<(), FeedFault>
    requires none { HasRead [] snapshot.old }
    ensures feeds { FeedsSource snapshot.old.base limit (S.seen source.old) (S.seen source.new) snapshot.new result }
    ensures base { snapshot.new.base ≡ snapshot.old.base }
{
    let mut buffer = [0; PIECE];
    let mut fed: u64 = 0;
    'pieces: while fed < limit {
        let most = (limit - fed).min(PIECE as u64) as usize;
        let count = feed_piece(snapshot, source, &mut buffer[..most])?;
        if count == 0 {
            return Ok(());
        }
        fed += count as u64;
    }
    Err(FeedFault::InputLimit)
}
