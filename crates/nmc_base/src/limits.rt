//! The limits of Namecoin that other crates cite.

/// No chain is higher: so many blocks stand below its tip, from height 0 on.
pub const HIGHEST_HEIGHT: u32 = 2_000_000_000;

/// No block has more bytes.
pub const LONGEST_BLOCK: usize = 8_388_608;

/// No name has more bytes (Namecoin's MAX_NAME_LENGTH).
pub const LONGEST_NAME: usize = 255;

/// No value of a name has more bytes (Namecoin's MAX_VALUE_LENGTH_UI).
pub const LONGEST_VALUE: usize = 1023;

/// What opens the commitment to a name has no more bytes.
pub const LONGEST_RAND: usize = 20;

/// The version of a transaction that carries a name (Namecoin's NAMECOIN_VERSION).
pub const NAME_VERSION: u32 = 0x7100;

/// For how many blocks a commitment has to stand before the name is opened (Namecoin's MIN_FIRSTUPDATE_DEPTH).
pub const MATURITY: u32 = 12;

/// A HASH160 digest, as that of a commitment, has so many bytes (RIPEMD-160).
pub const DIGEST_LENGTH: usize = 20;
