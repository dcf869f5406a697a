//! The readers of the words of a base: its profile, its hash, and its host.
ghost use Rattle.std.specs.Prelude.{◌≡◌, List, ℕ, Some, IfSome};
ghost use Rattle.name_store.specs.Host.{IsHostOf};
ghost use Rattle.nmc_base.specs.declared.chain_ends.Profile.{Profile};
ghost use Rattle.bridge_commands.specs.Words.{IsHash, profile_word};

use domain_text::{Name, absolute_name};
use nmc_base::{Hash32, Profile};

/// No name of a base's host has more bytes on the wire.
pub const LONGEST_HOST_NAME: usize = 244;

/// The hash that the word displays.
pub(crate) fn read_hash(word: &[u8]) -> Option<Hash32>
    ensures found { IfSome result (λ hash. IsHash word.now hash.0) }
    ensures one { (hash : List ℕ) → IsHash word.now hash → result ≡ Some (record { 0 = hash }) }
{
    let mut bytes = [0; 32];
    match hex::decode_to_slice(word, &mut bytes) {
        Ok(()) => {
            bytes.reverse();
            Some(Hash32(bytes))
        }
        Err(_) => None,
    }
}

/// The name of the host that the word is.
pub(crate) fn read_host(word: &[u8]) -> Option<Name>
    ensures found { IfSome result (λ name. IsHostOf word.now name) }
    ensures one { (name : List ℕ) → IsHostOf word.now name → result ≡ Some name }
{
    match absolute_name(word) {
        Some(name) => {
            if name.wire().len() <= LONGEST_HOST_NAME {
                Some(name)
            } else {
                None
            }
        }
        None => None,
    }
}

/// The profile whose word this is.
pub(crate) fn read_profile(word: &[u8]) -> Option<Profile>
    ensures found { IfSome result (λ profile. word.now ≡ profile_word profile) }
    ensures one { (profile : Profile) → word.now ≡ profile_word profile → result ≡ Some profile }
{
    match word {
        b"regtest" => Some(Profile::Regtest),
        b"main" => Some(Profile::Main),
        _ => None,
    }
}
