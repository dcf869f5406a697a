//! Puts pieces into a buffer.

ghost use Rattle.std.specs.Prelude.{◌≡◌, ◌+◌, ◌≤◌, ◌++◌, length, take, drop};
ghost use Rattle.domain_text.specs.Names.{lower};

/// Writes a piece at a place, and gives the place behind it.
pub(crate) fn put(buf: &mut [u8], at: usize, piece: &[u8]) -> usize
    requires { at + length piece.now ≤ length buf.old }
    ensures end { result ≡ at + length piece.now }
    ensures text { take result buf.new ≡ take at buf.old ++ piece.now }
    ensures whole { buf.new ≡ take at buf.old ++ (piece.now ++ drop (at + length piece.now) buf.old) }
{
    let end = at + piece.len();
    buf[at..end].copy_from_slice(piece);
    end
}

/// Writes a piece at a place, its ASCII letters in lower case, and gives the place behind it.
pub(crate) fn put_lower(buf: &mut [u8], at: usize, piece: &[u8]) -> usize
    requires { at + length piece.now ≤ length buf.old }
    ensures end { result ≡ at + length piece.now }
    ensures text { take result buf.new ≡ take at buf.old ++ lower piece.now }
{
    let mut end = at;
    for byte in piece {
        buf[end] = byte.to_ascii_lowercase();
        end += 1;
    }
    end
}
