//! Laws of the splitting into frames. Each is the contract of a function that does nothing.

ghost use Rattle.std.specs.Prelude.{◌≡◌, ℕ, List, [], ◌∷◌, ◌++◌, length, map};
ghost use Rattle.feed_frames.specs.Frames.{Frame, frames_text, Splits, IsRest, IsBadFrame, IsPartialFrame};
ghost use Rattle.feed_frames.specs.Feed.{Feed};
ghost use Rattle.feed_frames.specs.Kinds.{numbers_of};
ghost use Rattle.feed_frames.specs.Law.{Came, joined, AreBytes, HasSplitting};
ghost use Rattle.feed_frames.specs.declared.kinds.TheConstants.{KINDS};
ghost use Rattle.feed_frames.specs.declared.reader.TheConstants.{PIECE};

/// Bytes are whole frames and a rest that is none, and in one way: so a stream has one list of frames.
pub fn one_splitting()
    ensures one_at_most { (kinds : ℕ) (bytes : List ℕ) (frames others : List Frame) (rest left : List ℕ)
        → Splits kinds bytes frames rest → IsRest kinds rest → Splits kinds bytes others left → IsRest kinds left
        → (frames ≡ others) × (rest ≡ left) }
    ensures one_at_least { (kinds : ℕ) (bytes : List ℕ) → AreBytes bytes → HasSplitting kinds bytes }
    ensures bad_or_partial { (kinds : ℕ) (bytes : List ℕ) → IsBadFrame kinds bytes → IsPartialFrame kinds bytes → ⊥ }
    ensures bad_for_good { (kinds : ℕ) (bytes more : List ℕ) → IsBadFrame kinds bytes → IsBadFrame kinds (bytes ++ more) }
{}

/// Fed in any pieces, a reader gives the frames of the joined pieces: what it gave and what is left split them, and
/// where no whole frame is left, it gave all frames that any splitting has.
pub fn any_pieces()
    ensures split { (kinds : ℕ) (pieces : List (List ℕ)) (frames : List Frame) (feed : Feed)
        → Came kinds pieces frames feed → Splits kinds (joined pieces) frames feed.left }
    ensures offset { (kinds : ℕ) (pieces : List (List ℕ)) (frames : List Frame) (feed : Feed)
        → Came kinds pieces frames feed → feed.offset ≡ length (frames_text frames) }
    ensures all_frames { (kinds : ℕ) (pieces : List (List ℕ)) (frames others : List Frame) (feed : Feed) (rest : List ℕ)
        → Came kinds pieces frames feed → IsRest kinds feed.left → Splits kinds (joined pieces) others rest → IsRest kinds rest
        → (frames ≡ others) × (feed.left ≡ rest) }
{}

/// The numbers that definitions cite by their names: each kind of frame with the least and the greatest length of its payload (a
/// block to connect, a hash to disconnect, a message of DNS, a save, a listing to open, one to go on with, one to close, a save in
/// slices, its next slice), and how many bytes may be fed at once.
pub fn numbers_of_frames()
    ensures kinds { map numbers_of KINDS
        ≡ (1, 0, 8388608) ∷ (2, 32, 32) ∷ (3, 0, 65535) ∷ (4, 0, 0) ∷ (5, 0, 0) ∷ (6, 4, 4) ∷ (7, 4, 4) ∷ (8, 0, 0) ∷ (9, 4, 4) ∷ [] }
    ensures piece { PIECE ≡ 65536 }
{}
