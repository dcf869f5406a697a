//! Gives a whole text to a sink.

ghost use Rattle.frame_loop.specs.Delivery.{Delivers, TookUpTo};

use byte_io::Sink;

/// The sink failed, or took nothing of a piece that isn't empty.
#[derive(Clone, Copy, PartialEq, Eq, Debug)]
pub struct Undelivered;

/// Gives the whole text to the sink, in as many writes as it takes.
pub fn deliver<K: Sink>(sink: &mut K, text: &[u8]) -> Result<(), Undelivered>
    ensures { Delivers (K.seen sink.old) (K.seen sink.new) text.now result }
{
    let mut rest = text;
    while !rest.is_empty() {
        match sink.write(rest) {
            Ok(count) => {
                if count == 0 {
                    return Err(Undelivered);
                }
                let (_, left) = rest.split_at(count);
                rest = left;
            }
            Err(_) => return Err(Undelivered),
        }
    }
    Ok(())
}

/// Gives the text to the sink, as much as it takes.
pub(crate) fn deliver_part<K: Sink>(sink: &mut K, text: &[u8])
    ensures { TookUpTo (K.seen sink.old) (K.seen sink.new) text.now }
{
    let _ = deliver(sink, text);
}
