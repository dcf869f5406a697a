//! The reader of the head of a snapshot.

ghost use Rattle.std.specs.Prelude.{◌≡◌};
ghost use Rattle.undo_records.specs.Fields.{seen};
ghost use Rattle.name_snapshot.specs.Reading.{passed_from, head_from};
ghost use Rattle.name_snapshot.specs.Text.{mark};

use undo_records::coins::bad_tag;
use undo_records::fault::{Fault, cut};
use undo_records::fields::u32_at;

/// A snapshot begins with these bytes, of which the last is its version.
const MARK: [u8; 5] = *b"NMCS\x01";

/// What stands behind bytes that must be these. The first that is another one is a fault.
fn passed_at<'a>(want: &[u8], bytes: &'a [u8]) -> Result<&'a [u8], Fault<'a>>
    ensures { seen (λ rest. (tt, rest.now)) result ≡ passed_from want.entry.now bytes.entry.now }
{
    let mut wanted = want;
    let mut rest = bytes;
    while let [byte, others @ ..] = wanted {
        let Some((first, behind)) = rest.split_first() else {
            return Err(cut());
        };
        if *first != *byte {
            return Err(bad_tag(rest));
        }
        wanted = others;
        rest = behind;
    }
    Ok(rest)
}

/// The number of makes.
pub(crate) fn head_at<'a>(bytes: &'a [u8]) -> Result<(u32, &'a [u8]), Fault<'a>>
    ensures { seen (λ x. (x.0, x.1.now)) result ≡ head_from bytes.now }
{
    let rest = passed_at(&MARK, bytes)?;
    u32_at(rest)
}
