//! How long a name on the wire is.

ghost use Rattle.std.specs.Prelude.{◌≡◌, ◌↔◌, ◌≤◌, IsTrue};
ghost use Rattle.domain_text.specs.Reading.{name_length};
ghost use Rattle.domain_text.specs.declared.limits.TheConstants.{LONGEST_LABEL};

use domain_text::LONGEST_LABEL;

/// Whether a label may have so many bytes. A pointer's first byte is more (RFC 1035, 4.1.4).
fn is_label_length(length: usize) -> bool
    ensures { IsTrue result ↔ (length ≤ LONGEST_LABEL) }
{
    length <= LONGEST_LABEL
}

/// How many bytes the labels at the front take, with the 0 behind them (RFC 1035, 3.1). None where a length is none
/// of a label, or the bytes end before the 0.
pub(crate) fn name_len(bytes: &[u8]) -> Option<usize>
    ensures { result ≡ name_length 0 bytes.now }
{
    let mut rest = bytes;
    let mut len: usize = 0;
    while let Some((byte, more)) = rest.split_first() {
        let length = usize::from(*byte);
        if length == 0 {
            return Some(len + 1);
        }
        if !is_label_length(length) {
            return None;
        }
        if length > more.len() {
            return None;
        }
        rest = more.split_at(length).1;
        len += 1 + length;
    }
    None
}
