//! Which user has the other end of a connection, by a row of the system's table.

ghost use Rattle.std.specs.Prelude.{◌≡◌, ◌≢◌, ◌↔◌, ◌⊎◌, IsTrue, IfSome};

use std::net::SocketAddrV4;

/// The number of root.
const ROOT: u32 = 0;

/// A connection that was made (the system's number for the state, as for the next two).
const ESTABLISHED: u8 = 1;

/// One whose end has told that it sends no more.
const FIN_WAIT1: u8 = 4;

/// The same, and the other end has heard it.
const FIN_WAIT2: u8 = 5;

/// What stands in front of the address of an IPv4 peer in the table of IPv6: `::ffff:0:0/96` (RFC 4291, 2.5.5.2).
const MAPPED: &str = "0000000000000000FFFF0000";

/// The two ends of a connection, as its other end sees them.
#[derive(Clone, Copy)]
pub(crate) struct Ends {
    pub(crate) own: SocketAddrV4,
    pub(crate) other: SocketAddrV4,
}

/// Who holds a socket: the user that made it, and the number of the socket, which no other has.
#[derive(Clone, Copy, PartialEq)]
pub(crate) struct Holder {
    pub(crate) user: u32,
    pub(crate) inode: u64,
}

/// What a row of the system's table of connections says of a socket.
#[derive(Clone, Copy)]
struct Row {
    state: u8,
    user: u32,
    inode: u64,
}

impl Row {
    /// Who holds the socket, where its connection was made and isn't closed. A socket that was closed has no number any more, and
    /// its row may name root as its user.
    fn holder(&self) -> Option<Holder>
        ensures state { IfSome result (λ holder. (self.now.state ≡ 1) ⊎ ((self.now.state ≡ 4) ⊎ (self.now.state ≡ 5))) }
        ensures is_held { IfSome result (λ holder. self.now.inode ≢ 0) }
        ensures same { IfSome result (λ holder. (holder.user ≡ self.now.user) × (holder.inode ≡ self.now.inode)) }
    {
        match self.state {
            ESTABLISHED | FIN_WAIT1 | FIN_WAIT2 if self.inode != 0 => Some(Holder {
                user: self.user,
                inode: self.inode,
            }),
            _ => None,
        }
    }
}

/// Whether the feed takes what this user sends: the user that this program runs as, and root.
pub(crate) fn is_taken(user: u32, own: u32) -> bool
    ensures { IsTrue result ↔ ((user ≡ own) ⊎ (user ≡ 0)) }
{
    user == own || user == ROOT
}

/// Whether the text of a row is this address and port: in hexadecimal digits, the address as the processor reads its four
/// bytes.
fn is_at(text: &str, address: SocketAddrV4) -> bool {
    let (ip, port) = match text.split_once(':') {
        Some(parts) => parts,
        None => return false,
    };
    let ip = ip.strip_prefix(MAPPED).unwrap_or(ip);
    let wanted = u32::from_ne_bytes(address.ip().octets());
    u32::from_str_radix(ip, 16) == Ok(wanted) && u16::from_str_radix(port, 16) == Ok(address.port())
}

/// The row, where it is one of these ends: behind its number both addresses, the state, two queues, the timer, the
/// retransmits, the user, a time, and the socket's number (proc_net_tcp.txt of Linux).
fn row_of(line: &str, ends: &Ends) -> Option<Row> {
    let mut fields = line.split_ascii_whitespace();
    let own = fields.nth(1)?;
    if !is_at(own, ends.own) {
        return None;
    }
    let other = fields.next()?;
    if !is_at(other, ends.other) {
        return None;
    }
    Some(Row {
        state: u8::from_str_radix(fields.next()?, 16).ok()?,
        user: fields.nth(3)?.parse().ok()?,
        inode: fields.nth(1)?.parse().ok()?,
    })
}

/// Who holds this end of a connection, where one of the rows says so.
pub(crate) fn holder_in(rows: &str, ends: &Ends) -> Option<Holder> {
    for line in rows.lines() {
        if let Some(row) = row_of(line, ends) {
            return row.holder();
        }
    }
    None
}
