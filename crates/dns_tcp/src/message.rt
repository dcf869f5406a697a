//! The length of the message with which bytes begin.

ghost use Rattle.std.specs.Prelude.{◌≡◌};
ghost use Rattle.dns_tcp.specs.Messages.{IsFront};

/// The length of the message that the bytes begin with. `None` says that they are less than a whole message.
pub(crate) fn message_length(bytes: &[u8]) -> Option<usize>
    ensures { IsFront bytes.now result }
{
    match bytes {
        [high, low, rest @ ..] => {
            let length = u16::from_be_bytes([*high, *low]) as usize;
            if rest.len() < length {
                None
            } else {
                Some(length)
            }
        }
        _ => None,
    }
}
