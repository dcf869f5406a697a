//! A header with its merge-mining part, read in place.

ghost use Rattle.std.specs.Prelude.{◌≡◌, ℕ, ◌↔◌, Ok, IsTrue};
ghost use Rattle.block_grammar.specs.PureHeader.{IsMerged};
ghost use Rattle.block_grammar.specs.Header.{header_hash, header_text, FitsHeader};
ghost use Rattle.block_grammar.specs.Header as full;
ghost use Rattle.block_grammar.specs.Reading.{header_from};
ghost use Rattle.wire_read.specs.Seen.{seen};
ghost use Rattle.block_grammar.specs.Fault.{StandsFirst};
ghost use Rattle.block_grammar.specs.FaultRows.{HeaderByte};
ghost use Rattle.wire_read.specs.Front.{IsRead, Gives};

use crate::fields::{Fields, fields_in};
use crate::merge_part::{behind_merged, is_merged};
use nmc_base::Hash32;
use sha2::{Digest, Sha256};
use std::marker::Model;
use wire_read::{Fault, TxFault, before};

/// A header (Bitcoin's "Block Headers") with its merge-mining part, where it has one. Contracts see its contents.
#[derive(Drop)]
pub struct Header<'a> {
    fields: Fields,
    /// The 80 bytes.
    text: &'a [u8],
    /// The bytes behind them, with the merge-mining part at the front.
    behind: &'a [u8],
}

impl<'a> Model for Header<'a> {
    ghost use Rattle.std.specs.Prelude.{◌≡◌};
    ghost use Rattle.block_grammar.specs.PureHeader as plain;
    ghost use Rattle.block_grammar.specs.Header as full;
    ghost use Rattle.block_grammar.specs.Reading.{merged_from};
    ghost use Rattle.auxpow_header.specs.Seen.{seen_fields, part_read};

    ghost Value = { full.Header };

    ghost view = { λ h. record { fields = seen_fields h.fields; merged = part_read (merged_from h.fields.version h.behind.now) } };

    ghost invariant = { λ h. h.text.now ≡ plain.pure_header_text (seen_fields h.fields) };
}

impl<'a> Header<'a> {
    /// The block's hash: the double SHA-256 of the 80 bytes.
    #[tactic(auto, unfolding(block_grammar::specs::Header::header_hash))]
    pub fn hash(&self) -> Hash32
        ensures { result.0 ≡ header_hash self.now }
    {
        Hash32(Sha256::digest(Sha256::digest(self.text)))
    }

    /// The hash of the block before.
    pub fn previous(&self) -> Hash32
        ensures { result.0 ≡ self.now.fields.previous }
    {
        Hash32(self.fields.previous)
    }

    /// The root of the Merkle tree over the transactions' ids.
    pub fn root(&self) -> Hash32
        ensures { result.0 ≡ self.now.fields.root }
    {
        Hash32(self.fields.root)
    }

    /// The version. Its four bytes stand low byte first.
    pub fn version(&self) -> u32
        ensures { result ≡ self.now.fields.version }
    {
        self.fields.version
    }

    /// Whether the version has bit 0x100, and so a merge-mining part follows the 80 bytes.
    pub fn merged(&self) -> bool
        ensures { IsTrue result ↔ IsMerged self.now.fields.version }
    {
        is_merged(self.fields.version)
    }
}

#[tactic(auto, unfolding(block_grammar::specs::Reading::header_from))]
fn header_in<'a>(bytes: &'a [u8]) -> Result<(Header<'a>, &'a [u8]), Fault<'a>>
    ensures { seen (λ x. (x.0, x.1.now)) result ≡ header_from bytes.now }
{
    let (fields, behind) = fields_in(bytes)?;
    let after = behind_merged(fields.version, behind)?;
    let text = before(bytes, behind);
    let header = Header {
        fields,
        text,
        behind,
    };
    Ok((header, after))
}

/// Reads the header with its merge-mining part at the front, and says how many bytes they take. Bytes may follow them.
pub fn read_header<'a>(bytes: &'a [u8]) -> Result<(Header<'a>, usize), TxFault>
    // What is read is there, and each fault is the first.
    ensures read { IsRead header_text FitsHeader HeaderByte bytes.now result }
    // A header at the front is read.
    ensures only { (h : full.Header) (n : ℕ) → StandsFirst header_text FitsHeader bytes.now h n → result ≡ Ok (h, n) }
    // The same, by the reader on lists.
    ensures exact { Gives header_from bytes.now result }
{
    match header_in(bytes) {
        Ok((header, rest)) => Ok((header, bytes.len() - rest.len())),
        Err(fault) => Err(TxFault {
            kind: fault.kind,
            at: bytes.len() - fault.rest.len(),
        }),
    }
}
