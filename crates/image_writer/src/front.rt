//! The first bytes of a key, by which keys are put in order.

ghost use Rattle.std.specs.Prelude.{◌≡◌};
ghost use Rattle.image_writer.specs.Front.{padded};

use crate::copy::copy_into;

/// The first bytes of a key; zeros stand for those that it lacks.
pub(crate) fn front_of<const N: usize>(key: &[u8]) -> [u8; N]
    ensures { result ≡ padded N key.now }
{
    let mut front = [0; N];
    copy_into(key, &mut front, 0);
    front
}
