//! RIPEMD-160 of a message, whole or in pieces, and HASH160, which is RIPEMD-160 of SHA-256.
//!
//! No call takes memory or refuses. A message may have any length: that in its padding is taken modulo
//! 2^64 bits, as in MD4 (RFC 1320, section 3.2), whose padding this is.
#![tactic(auto)]

ghost use Rattle.std.specs.Prelude.{◌≡◌, ◌↔◌, ◌++◌, ℕ, List};
ghost use Rattle.hash160.specs.Hash160.{hash160};
ghost use Rattle.hash160.specs.Ripemd160.{IsDigest, ripemd160};

mod compress;
mod pieces;

use nmc_base::Hash20;
pub use pieces::Ripemd;
use sha2::{Digest, Sha256};

/// The RIPEMD-160 of a message (Dobbertin, Bosselaers and Preneel, 1996).
pub fn ripemd160(bytes: &[u8]) -> Hash20
    ensures value { result.0 ≡ ripemd160 bytes.now }
    // It is what the standard calls a digest of the message, and nothing else is.
    ensures standard { (digest : List ℕ) → IsDigest bytes.now digest ↔ (digest ≡ result.0) }
{
    let mut hasher = Ripemd::new();
    hasher.update(bytes);
    hasher.finish()
}

/// The HASH160 of a message: the RIPEMD-160 of its SHA-256 (FIPS 180-4, section 6.2).
pub fn hash160(bytes: &[u8]) -> Hash20
    ensures { result.0 ≡ hash160 bytes.now }
{
    ripemd160(&Sha256::digest(bytes))
}

/// The HASH160 of two pieces that follow each other, without joining them in memory.
pub fn hash160_pair(first: &[u8], second: &[u8]) -> Hash20
    ensures { result.0 ≡ hash160 (first.now ++ second.now) }
{
    let mut hasher = Sha256::new();
    hasher.update(first);
    hasher.update(second);
    ripemd160(&hasher.finalize())
}
