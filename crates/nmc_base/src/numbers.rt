//! The numbers of chains and names, as definitions cite them.
ghost use Rattle.std.specs.Prelude.{◌≡◌};
ghost use Rattle.nmc_base.specs.declared.limits.TheConstants.{DIGEST_LENGTH, HIGHEST_HEIGHT, LONGEST_BLOCK, LONGEST_NAME, LONGEST_RAND, LONGEST_VALUE, MATURITY, NAME_VERSION};

/// The numbers that definitions cite by their names: Namecoin's of names, the length of a HASH160 digest, and how high this
/// server's chain may be and how long its blocks.
pub fn numbers_of_chains()
    ensures lengths { (LONGEST_NAME ≡ 255) × (LONGEST_VALUE ≡ 1023) × (LONGEST_RAND ≡ 20) × (DIGEST_LENGTH ≡ 20) }
    ensures version { NAME_VERSION ≡ 28928 }
    ensures maturity { MATURITY ≡ 12 }
    ensures height { HIGHEST_HEIGHT ≡ 2000000000 }
    ensures block { LONGEST_BLOCK ≡ 8388608 }
{}
