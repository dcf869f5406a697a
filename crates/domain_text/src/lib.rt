//! Domain names on the wire, host texts and the texts of addresses.
#![tactic(auto)]

mod front;
mod groups;
mod host;
mod ipv4;
mod ipv6;
mod label;
mod limits;
mod name;

ghost use Rattle.std.specs.Prelude.{◌≡◌};
ghost use Rattle.domain_text.specs.declared.limits.TheConstants.{LONGEST_LABEL as longest_label, LONGEST_WIRE as longest_wire};

pub use host::{Form, Host, absolute_name, are_labels, read_host};
pub use ipv4::read_ipv4;
pub use ipv6::read_ipv6;
pub use label::{is_entry_label, is_label};
pub use limits::{LONGEST_LABEL, LONGEST_WIRE};
pub use name::Name;

/// The sizes of labels and names (RFC 1035, 2.3.4).
pub fn sizes_of_names()
    ensures label { longest_label ≡ 63 }
    ensures name { longest_wire ≡ 255 }
{}
