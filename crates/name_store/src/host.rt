//! The host of a base: its name, and how long that may be.

ghost use Rattle.std.specs.Prelude.{◌≡◌, MatchOption};
ghost use Rattle.name_store.specs.Host.{IsHostText, IsHostOf};
ghost use Rattle.name_store.specs.declared.host.TheConstants.{LONGEST_HOST_NAME as longest_host_name};

use domain_text::{Name, absolute_name};

/// No name of a base's host has more bytes on the wire: with the label `hostmaster` before it, it is a name still.
pub const LONGEST_HOST_NAME: usize = 244;

/// The name of a base's host, None exactly where the text is none.
pub fn host_name(text: &[u8]) -> Option<Name>
    ensures { MatchOption result (¬ (IsHostText text.now)) (λ name. IsHostOf text.now name) }
{
    match absolute_name(text) {
        Some(name) => {
            if name.wire().len() <= LONGEST_HOST_NAME {
                Some(name)
            } else {
                None
            }
        }
        None => None,
    }
}

/// The number that definitions cite by its name: `hostmaster` with its length takes 11 of a name's 255 bytes (RFC 1035, 2.3.4).
pub fn number_of_hosts()
    ensures { longest_host_name ≡ 244 }
{}
