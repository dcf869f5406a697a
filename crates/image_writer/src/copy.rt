//! Copies bytes into a buffer, as many as have room.

ghost use Rattle.std.specs.Prelude.{◌≡◌, ◌+◌, ◌-◌, ◌++◌, ◌≤◌, drop, length, min, take};

/// Copies bytes into the buffer, from a place on, as many as there are or as have room there. Answers how many.
pub fn copy_into(bytes: &[u8], buf: &mut [u8], at: usize) -> usize
    requires { at ≤ length buf.old }
    ensures count { result ≡ min (length bytes.now) (length buf.old - at) }
    ensures front { take (at + result) buf.new ≡ take at buf.old ++ take result bytes.now }
    ensures behind { drop (at + result) buf.new ≡ drop (at + result) buf.old }
{
    let count = bytes.len().min(buf.len() - at);
    buf[at..at + count].copy_from_slice(&bytes[..count]);
    count
}
