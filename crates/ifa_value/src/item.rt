//! The items that a value may have, and what they hold.

ghost use Rattle.std.specs.Prelude.{◌≡◌};
ghost use Rattle.ifa_value.specs.Values.{key_text};

use nmc_base::{Bytes, RoomyList};

/// An item of a value (IFA-0001).
#[derive(Clone, Copy, PartialEq, Eq, Debug)]
pub enum Key {
    /// IPv4 addresses.
    Ip,
    /// IPv6 addresses.
    Ip6,
    /// Name servers: the domain is delegated to them.
    Ns,
    /// Another name for the domain itself.
    Alias,
    /// Another name for all that is below the domain.
    Translate,
    /// Delegation signers.
    Ds,
    /// Certificates of TLS.
    Tls,
    /// Fingerprints of SSH keys.
    Sshfp,
    /// Texts.
    Txt,
    /// Services.
    Srv,
    /// Mail exchanges.
    Mx,
    /// What stands below the domain.
    Map,
    /// Values that are taken in.
    Import,
}

/// One well-shaped element of an item. Texts and digests are as long as the value has them.
#[derive(Drop)]
pub enum Element {
    /// Of `ip`: the four bytes of the address.
    Ip4([u8; 4]),
    /// Of `ip6`: the sixteen bytes of the address.
    Ip6([u8; 16]),
    /// Of `ns`, `alias` and `translate`: a host text.
    Host(Bytes),
    /// Of `ds` (RFC 4034, 5.1).
    Ds {
        tag: u16,
        algorithm: u8,
        kind: u8,
        digest: Bytes,
    },
    /// Of `tls` (RFC 6698, 2.1).
    Tls {
        usage: u8,
        selector: u8,
        matching: u8,
        digest: Bytes,
    },
    /// Of `sshfp` (RFC 4255, 3.1).
    Sshfp {
        algorithm: u8,
        kind: u8,
        digest: Bytes,
    },
    /// Of `txt`: strings of up to 255 bytes, each behind its length (RFC 1035, 3.3.14).
    Txt(Bytes),
    /// Of `srv`, with a host text (RFC 2782).
    Srv {
        priority: u16,
        weight: u16,
        port: u16,
        host: Bytes,
    },
    /// Of `mx`, with a host text (RFC 1035, 3.3.9).
    Mx {
        preference: u16,
        host: Bytes,
    },
    /// Of `import`: a name of the index, and labels joined by dots, or nothing.
    Import {
        name: Bytes,
        selector: Bytes,
    },
}

/// A list of elements.
pub type Elements = RoomyList<Element>;

impl Key {
    /// The member of the object that holds the item.
    pub fn name(self) -> &'static str
        ensures { result.now ≡ key_text self }
    {
        match self {
            Key::Ip => "ip",
            Key::Ip6 => "ip6",
            Key::Ns => "ns",
            Key::Alias => "alias",
            Key::Translate => "translate",
            Key::Ds => "ds",
            Key::Tls => "tls",
            Key::Sshfp => "sshfp",
            Key::Txt => "txt",
            Key::Srv => "srv",
            Key::Mx => "mx",
            Key::Map => "map",
            Key::Import => "import",
        }
    }
}
