//! Hashes and outpoints.

ghost use Rattle.std.specs.Prelude.{◌≡◌, Some};
ghost use Rattle.nmc_base.specs.Hash.{display_text, outpoint_cmp};
ghost use Rattle.hex.specs.Hex.{encode_lower};

use std::cmp::Ordering;
use std::fmt;

/// The double SHA-256 of a block's header or of a transaction, its bytes in the order in which
/// blocks carry them.
///
/// It is displayed as people write it: its bytes from the last to the first, as 64 lower-case
/// hexadecimal digits.
#[derive(Clone, Copy, PartialEq, Eq, PartialOrd, Ord, Hash, Debug)]
pub struct Hash32(pub [u8; 32]);

/// A RIPEMD-160 digest, its bytes in the order of its publication.
///
/// It is displayed in that order, as 40 lower-case hexadecimal digits.
#[derive(Clone, Copy, PartialEq, Eq, PartialOrd, Ord, Hash, Debug)]
pub struct Hash20(pub [u8; 20]);

/// An output of a transaction: its txid, and its place among the outputs, counted from 0.
///
/// Outpoints are ordered by the bytes of the txid, and then by the index.
#[derive(Clone, Copy, PartialEq, Eq, PartialOrd, Ord, Hash, Debug)]
pub struct OutPoint {
    pub txid: Hash32,
    pub index: u32,
}

impl OutPoint {
    /// How this outpoint stands to the other in their order, which is that of `cmp` and `<`.
    pub fn order(&self, other: &OutPoint) -> Ordering
        ensures { result ≡ outpoint_cmp self.now other.now }
    {
        self.cmp(other)
    }
}

impl fmt::Display for Hash32 {
    ghost output = { λ h. Some (display_text h.0) };

    fn fmt<W: fmt::Write>(&self, f: &mut fmt::Formatter<W>) -> fmt::Result {
        let mut shown = self.0;
        shown.reverse();
        let mut digits = [0u8; 64];
        match hex::encode_to_slice(shown, &mut digits) {
            Ok(()) => {}
            Err(_) => unreachable!(),
        }
        match str::from_utf8(&digits) {
            Ok(text) => f.write_str(text),
            Err(_) => unreachable!(),
        }
    }
}

impl fmt::Display for Hash20 {
    ghost output = { λ h. Some (encode_lower h.0) };

    fn fmt<W: fmt::Write>(&self, f: &mut fmt::Formatter<W>) -> fmt::Result {
        let mut digits = [0u8; 40];
        match hex::encode_to_slice(self.0, &mut digits) {
            Ok(()) => {}
            Err(_) => unreachable!(),
        }
        match str::from_utf8(&digits) {
            Ok(text) => f.write_str(text),
            Err(_) => unreachable!(),
        }
    }
}
