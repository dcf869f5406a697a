//! What bytes are read from.

ghost use Rattle.byte_io.specs.Source.{SourceSeen, Reads};

use crate::errors::Failed;

/// Something that bytes are read from, in order.
pub trait Source {
    ghost seen: { Self → SourceSeen };

    /// Reads into the front of `buf`, and says how many bytes.
    ///
    /// A read into a buffer that isn't empty gives at least one byte, or 0 at the end of input. `Failed`
    /// comes only where the count of faults rose in this call, and then no byte was read.
    fn read(&mut self, buf: &mut [u8]) -> Result<usize, Failed>
        ensures { Reads (seen self.old) (seen self.new) buf.new result };
}
