//! What takes bytes.

ghost use Rattle.byte_io.specs.Sink.{SinkSeen, Writes};

use crate::errors::Failed;

/// Something that takes bytes, in order.
pub trait Sink {
    ghost seen: { Self → SinkSeen };

    /// Takes bytes from the front of `piece`, and says how many.
    ///
    /// `Failed` comes only where the count of faults rose in this call, and then no byte was taken.
    fn write(&mut self, piece: &[u8]) -> Result<usize, Failed>
        ensures { Writes (seen self.old) (seen self.new) piece.now result };
}
