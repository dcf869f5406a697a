//! The text of a base's host, in a fixed array.

// The text of a base's host.
ghost use Rattle.std.specs.Prelude.{◌≡◌, ◌≤◌, ◌+◌, List, ℕ, length, take};
ghost use Rattle.name_store.specs.Host.{IsHostOf};
ghost use Rattle.name_store.specs.Spelling as texts;
ghost use Rattle.name_store.specs.declared.host_text.TheConstants.{LONGEST_HOST};

use domain_text::Name;
use std::marker::Model;

/// No text of a base's host has more bytes: its name has one more on the wire.
pub const LONGEST_HOST: usize = 243;

/// The text of a base's host, in a fixed array. Contracts see its bytes.
#[derive(Drop)]
pub struct HostText {
    bytes: [u8; LONGEST_HOST],
    len: usize,
}

impl Model for HostText {
    ghost use Rattle.std.specs.Prelude.{List, ℕ, take, ◌≤◌};
    ghost use Rattle.name_store.specs.declared.host_text.TheConstants.{LONGEST_HOST};

    ghost Value = { List ℕ };

    ghost view = { λ h. take h.len h.bytes };

    ghost invariant = { λ h. h.len ≤ LONGEST_HOST };
}

/// Puts what the length of a name's first label and the bytes behind it spell into the array, and says where it ends.
fn spell_from(first: u8, rest: &[u8], out: &mut [u8]) -> usize
    requires { length rest.now ≤ length out.old }
    ensures end { result ≡ length rest.now }
    ensures text { take result out.new ≡ texts.spelled_from first rest.now }
{
    let mut left = first;
    let mut len: usize = 0;
    for byte in rest {
        if left == 0 {
            out[len] = b'.';
            left = *byte;
        } else {
            out[len] = *byte;
            left -= 1;
        }
        len += 1;
    }
    len
}

/// Puts what the wire form of a name spells into the array, and says where it ends.
fn spell(wire: &[u8], out: &mut [u8]) -> usize
    requires { length wire.now ≤ length out.old + 1 }
    ensures room { result ≤ length out.new }
    ensures text { take result out.new ≡ texts.spelled wire.now }
{
    match wire.split_first() {
        Some((first, rest)) => spell_from(*first, rest, out),
        None => 0,
    }
}

impl HostText {
    /// The text of a host's name.
    pub fn of(name: &Name) -> HostText
        requires { (text : List ℕ) × IsHostOf text name.now }
        ensures { (text : List ℕ) → IsHostOf text name.now → result ≡ text }
    {
        let mut bytes = [0; LONGEST_HOST];
        let len = spell(name.wire(), &mut bytes);
        HostText { bytes, len }
    }

    /// Its bytes.
    pub fn as_slice(&self) -> &[u8]
        ensures value { result.now ≡ self.now }
        ensures short { length result.now ≤ LONGEST_HOST }
    {
        &self.bytes[..self.len]
    }
}
