//! The fields of the 80 bytes of a header.

ghost use Rattle.std.specs.Prelude.{◌≡◌};
ghost use Rattle.block_grammar.specs.Reading.{fields_from};
ghost use Rattle.wire_read.specs.Seen.{seen};
ghost use Rattle.auxpow_header.specs.Seen.{seen_fields};

use wire_read::{Fault, hash_at, u32_at};

/// The fields of the 80 bytes.
#[derive(Clone, Copy, Debug)]
pub(crate) struct Fields {
    pub(crate) version: u32,
    pub(crate) previous: [u8; 32],
    pub(crate) root: [u8; 32],
    time: u32,
    bits: u32,
    nonce: u32,
}

#[tactic(auto, unfolding(block_grammar::specs::Reading::fields_from))]
pub(crate) fn fields_in<'a>(bytes: &'a [u8]) -> Result<(Fields, &'a [u8]), Fault<'a>>
    ensures { seen (λ x. (seen_fields x.0, x.1.now)) result ≡ fields_from bytes.now }
{
    let (version, rest) = u32_at(bytes)?;
    let (previous, rest) = hash_at(rest)?;
    let (root, rest) = hash_at(rest)?;
    let (time, rest) = u32_at(rest)?;
    let (bits, rest) = u32_at(rest)?;
    let (nonce, rest) = u32_at(rest)?;
    let fields = Fields {
        version,
        previous,
        root,
        time,
        bits,
        nonce,
    };
    Ok((fields, rest))
}
