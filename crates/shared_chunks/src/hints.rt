//! A number of eight bytes that stands for a key where two are compared.

ghost use Rattle.std.specs.Prelude.{◌≡◌, ◌<◌, List, ℕ};
ghost use Rattle.std.specs.Cmp.Lexicographic.{slice_cmp};
ghost use Rattle.std.specs.Ordering.{nat_cmp};
ghost use Rattle.std.specs.declared.cmp.Ordering.TheVariants.{Less};
ghost use Rattle.shared_chunks.specs.Eight.{number};
ghost use Rattle.shared_chunks.specs.Hints.{less_by};
ghost use Rattle.shared_chunks.specs.Rising.{rising_points};

use nmc_base::OutPoint;
use std::cmp::Ordering;

/// A key with a number that stands for it where two are compared: of two keys that differ in it the one with the lower number
/// is the lower. So most keys are told apart without being read.
pub trait Hinted: Ord {
    ghost hint_of: { Self → ℕ };

    /// The number.
    fn hint(&self) -> u64
        ensures { result ≡ hint_of self.now };

    ghost hints_rise: { (x y : Self) → hint_of x < hint_of y → Self.cmp x y ≡ Less };
}

/// Of two texts the one with the lower number is the lower.
pub fn numbers_rise()
    ensures { (xs ys : List ℕ) → number 8 xs < number 8 ys → slice_cmp nat_cmp xs ys ≡ Less }
{}

/// The first eight bytes of a text as a number, zeros in the place of those that lack. It takes no memory.
pub fn number_of(bytes: &[u8]) -> u64
    ensures { result ≡ number 8 bytes.now }
{
    let mut sum = 0u64;
    let mut left = 8usize;
    let mut rest = bytes;
    while left > 0 {
        match rest.split_first() {
            None => {
                sum = sum * 256;
                left = left - 1;
            }
            Some((byte, more)) => {
                sum = sum * 256 + *byte as u64;
                left = left - 1;
                rest = more;
            }
        }
    }
    sum
}

impl Hinted for u32 {
    ghost hint_of = { λ x. x };

    fn hint(&self) -> u64 {
        *self as u64
    }

    ghost hints_rise = { λ x y h. less_by x y h };
}

impl Hinted for usize {
    ghost hint_of = { λ x. x };

    fn hint(&self) -> u64 {
        *self as u64
    }

    ghost hints_rise = { λ x y h. less_by x y h };
}

impl Hinted for OutPoint {
    ghost hint_of = { λ x. number 8 x.txid.0 };

    fn hint(&self) -> u64 {
        number_of(&self.txid.0)
    }

    ghost hints_rise = { rising_points };
}
