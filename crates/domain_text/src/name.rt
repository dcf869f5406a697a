//! Names on the wire.

ghost use Rattle.std.specs.Prelude.{◌≡◌, ◌↔◌, ◌≤◌, ◌∷◌, [], List, ℕ, Some, IsTrue, MatchOption, length};
ghost use Rattle.domain_text.specs.Names.{IsName, lower, if_fits, joined_to};
ghost use Rattle.domain_text.specs.Host.{AreLabels, parts_of};
ghost use Rattle.domain_text.specs.Reading.{name_length};
ghost use Rattle.domain_text.specs.declared.limits.TheConstants.{LONGEST_WIRE};

use crate::front::Front;
use crate::label::cut;
use crate::limits::{LONGEST_LABEL, LONGEST_WIRE};
use std::marker::Model;

/// A domain name in its wire form, in a fixed array: labels of 1 to 63 bytes, each behind its length, the
/// lowest first, and a 0; in all at most 255 bytes (RFC 1035, 3.1 and 2.3.4). Contracts see these bytes.
#[derive(Drop)]
pub struct Name {
    wire: Front,
}

impl Model for Name {
    ghost use Rattle.std.specs.Prelude.{List, ℕ};
    ghost use Rattle.domain_text.specs.Names.{IsName};

    ghost Value = { List ℕ };

    ghost view = { λ n. n.wire };

    ghost invariant = { λ n. IsName n.wire };
}

/// How many bytes the labels at the front take, with the 0 behind them.
fn name_len(bytes: &[u8]) -> Option<usize>
    ensures { result ≡ name_length 0 bytes.now }
{
    let mut left: usize = 0;
    let mut len: usize = 0;
    for byte in bytes {
        let length = usize::from(*byte);
        if left != 0 {
            left -= 1;
        } else if length == 0 {
            return Some(len + 1);
        } else if length > LONGEST_LABEL {
            return None;
        } else {
            left = length;
        }
        len += 1;
    }
    None
}

/// Whether the bytes, which are few enough for a name, are those of one.
fn is_name(wire: &[u8]) -> bool
    requires { length wire.now ≤ LONGEST_WIRE }
    ensures { IsTrue result ↔ IsName wire.now }
{
    match name_len(wire) {
        Some(len) => len == wire.len(),
        None => false,
    }
}

/// The labels of a text, each behind its length, and what they stand below.
fn joined(labels: &[u8], end: &[u8]) -> Option<Front>
    requires labels { AreLabels (parts_of labels.now) }
    ensures { result ≡ if_fits (joined_to (parts_of labels.now) end.now) }
{
    let mut front = Front::empty();
    let mut rest = if labels.is_empty() {
        None
    } else {
        Some(labels)
    };
    while let Some(text) = rest {
        let (label, more) = cut(text, b'.');
        front = front.append(&[label.len() as u8])?.append(label)?;
        rest = more;
    }
    front.append(end)
}

impl Name {
    /// The name of these bytes, None exactly where they are no name.
    pub fn from_wire(wire: &[u8]) -> Option<Name>
        ensures { MatchOption result (¬ (IsName wire.now)) (λ name. (name ≡ wire.now) × IsName wire.now) }
    {
        let front = Front::empty().append(wire)?;
        if !is_name(wire) {
            return None;
        }
        Some(Name { wire: front })
    }

    /// The name of the root: no label.
    pub fn root() -> Name
        ensures { result ≡ 0 ∷ [] }
    {
        Name {
            wire: Front::of_byte(0),
        }
    }

    /// The labels that a text joins by dots, below this name. None exactly where the name would have more than
    /// 255 bytes.
    pub(crate) fn with_labels(&self, labels: &[u8]) -> Option<Name>
        requires labels { AreLabels (parts_of labels.now) }
        ensures { result ≡ if_fits (joined_to (parts_of labels.now) self.now) }
    {
        let wire = joined(labels, self.wire())?;
        Some(Name { wire })
    }

    /// The wire form.
    pub fn wire(&self) -> &[u8]
        ensures value { result.now ≡ self.now }
        ensures name { IsName result.now }
    {
        self.wire.as_slice()
    }

    /// The same name again.
    pub fn copy(&self) -> Name
        ensures { result ≡ self.now }
    {
        Name {
            wire: self.wire.copy(),
        }
    }

    /// Whether the names are the same, without regard to the case of ASCII letters (RFC 1035, 2.3.3).
    pub fn same(&self, other: &Name) -> bool
        ensures { IsTrue result ↔ (lower self.now ≡ lower other.now) }
    {
        self.wire().eq_ignore_ascii_case(other.wire())
    }

    /// The name with its ASCII letters in lower case.
    pub fn lower(&self) -> Name
        ensures { result ≡ lower self.now }
    {
        Name {
            wire: self.wire.lower(),
        }
    }
}
