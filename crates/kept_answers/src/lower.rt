//! A name in lower case, in room that is given.

ghost use Rattle.std.specs.Prelude.{◌≡◌, ◌≤◌, length};
ghost use Rattle.domain_text.specs.Names.{lower};
ghost use Rattle.domain_text.specs.declared.limits.TheConstants.{LONGEST_WIRE};

/// So many bytes are made lower at a time.
const STRIDE: usize = 32;

/// Room for the longest name, a whole number of strides.
pub(crate) const ROOM: usize = 256;

/// The bytes of a name in lower case, in the room. Whole strides are made lower, also where the name ends within one: byte by byte its
/// end would take longer.
pub(crate) fn lower_in<'a>(room: &'a mut [u8; ROOM], name: &[u8]) -> &'a [u8]
    requires { length name.now ≤ LONGEST_WIRE }
    ensures { result.now ≡ lower name.now }
{
    room[..name.len()].copy_from_slice(name);
    room[..name.len().next_multiple_of(STRIDE)].make_ascii_lowercase();
    &room[..name.len()]
}
