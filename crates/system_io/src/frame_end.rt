//! Where the frames of a feed end.
ghost use Rattle.std.specs.Prelude.{◌≡◌, ◌+◌, ◌<◌, ◌≤◌, [], take, drop, length};
ghost use Rattle.system_io.specs.Layout.{frame_size};

/// The bytes in front of a frame's payload: its kind, and the payload's length in four bytes, the lowest one first (FORMATS, Frames).
const HEAD: usize = 5;

/// What was read of the frame of a feed that has begun. A read that asks for no more than is left brings no byte of the next frame.
#[derive(Clone, Copy)]
pub(crate) struct FrameEnd {
    head: [u8; HEAD],
    // how many bytes were read
    count: usize,
    // behind how many the head ends, or, where it was read, the frame
    end: usize,
    ghost within: { count < end },
    ghost head_end: { count < 5 → end ≡ 5 },
    ghost frame_end: { 5 ≤ count → end ≡ frame_size head },
}

/// Puts the piece into the head, from a place on.
fn put(head: &mut [u8; HEAD], at: usize, piece: &[u8])
    requires { at + length piece.now ≤ 5 }
    ensures kept { take at head.new ≡ take at head.old }
    ensures put { take (length piece.now) (drop at head.new) ≡ piece.now }
{
    head[at..at + piece.len()].copy_from_slice(piece);
}

/// How long the frame with this head is.
fn size_of(head: &[u8; HEAD]) -> usize
    ensures { result ≡ frame_size head.now }
{
    HEAD + u32::from_le_bytes([head[1], head[2], head[3], head[4]]) as usize
}

impl FrameEnd {
    ghost use Rattle.system_io.specs.FrameEnd.{Stands, GoesOn};

    /// Nothing was read yet.
    pub(crate) fn new() -> FrameEnd
        ensures { Stands result [] }
    {
        FrameEnd {
            head: [0; HEAD],
            count: 0,
            end: HEAD,
        }
    }

    /// How many bytes the next read may bring.
    pub(crate) fn left(&self) -> usize
        ensures some { 0 < result }
        ensures end { self.now.count + result ≡ self.now.end }
    {
        self.end - self.count
    }

    /// What was read with this piece.
    pub(crate) fn after(self, piece: &[u8]) -> FrameEnd
        requires { self.count + length piece.now ≤ self.end }
        ensures { GoesOn self piece.now result }
    {
        let mut head = self.head;
        if self.count < HEAD {
            put(&mut head, self.count, piece);
        }
        let count = self.count + piece.len();
        let end = if count < HEAD { HEAD } else { size_of(&head) };
        if count == end {
            return FrameEnd::new();
        }
        FrameEnd { head, count, end }
    }
}
