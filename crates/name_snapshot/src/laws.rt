//! Laws of the definitions. Each is the contract of a function that does nothing.

ghost use Rattle.std.specs.Prelude.{◌≡◌, ◌⊎◌, ℕ, ◌+◌, ◌*◌, ◌<◌, ◌≤◌, List, [], ◌∷◌, ◌++◌, length, replicate, slice_index, take, Result, Some};
ghost use Rattle.byte_io.specs.Source.{SourceSeen};
ghost use Rattle.nmc_base.specs.declared.chain_ends.Base.{Base};
ghost use Rattle.chain_names.specs.Index.{index_maps};
ghost use Rattle.name_tables.specs.declared.parts.Parts.{Parts};
ghost use Rattle.undo_records.specs.declared.version.Version.TheVariants.{Two};
ghost use Rattle.image_grammar.specs.Text.{IsStateText};
ghost use Rattle.name_snapshot.specs.Agreeing.{IsOfTheBytes, SameAnswer};
ghost use Rattle.name_snapshot.specs.Faults.{IsBad, HasFault};
ghost use Rattle.name_snapshot.specs.Makes.{IsSnapshot};
ghost use Rattle.name_snapshot.specs.Rows.{base_of_rows, value_make, commitment_make, head_bytes, point_bytes, named_bytes, make_bytes, one_text};
ghost use Rattle.name_snapshot.specs.SourceAnswers.{ReadsSnapshot};
ghost use Rattle.name_snapshot.specs.Text.{StartMake, make_text, snapshot_text, start_of};
ghost use Rattle.name_snapshot.specs.declared.feed_fault.FeedFault.{FeedFault};

/// A text of bytes is a snapshot on a base, of one list of makes, or has its first fault, at one place.
pub fn one_answer()
    ensures makes { (base : Base) (text : List ℕ) (makes others : List StartMake) → IsSnapshot base text makes → IsSnapshot base text others → makes ≡ others }
    ensures fault { (base : Base) (text : List ℕ) (at other : ℕ) → HasFault base text at → HasFault base text other → at ≡ other }
    ensures apart { (base : Base) (text : List ℕ) (makes : List StartMake) (at : ℕ) → IsSnapshot base text makes → HasFault base text at → ⊥ }
    ensures either { (base : Base) (text : List ℕ) → ((i : ℕ) → slice_index text i < 256)
        → ((makes : List StartMake) × IsSnapshot base text makes) ⊎ ((at : ℕ) × HasFault base text at) }
{}

/// The bytes of a source decide the answer, unless memory runs out or the source fails: two runs over the same bytes answer the same.
pub fn answers_exclude()
    ensures { (base : Base) (limit : ℕ) (bytes : List ℕ) (old new other last : SourceSeen) (answer second : Result Parts FeedFault) → old.left ≡ Some bytes → other.left ≡ Some bytes
        → ReadsSnapshot base limit old new answer → ReadsSnapshot base limit other last second → IsOfTheBytes answer → IsOfTheBytes second → SameAnswer answer second }
{}

/// A fault but that of the end stays, whatever follows.
pub fn faults_stay()
    ensures { (base : Base) (text more rest : List ℕ) → IsBad base text rest → IsBad base (text ++ more) (rest ++ more) }
{}

/// The image of the index that a snapshot gives is at most three times as long, and 54 bytes more, of which 32 are the hash of the
/// base.
pub fn images_are_short()
    ensures { (base : Base) (text : List ℕ) (makes : List StartMake) (image : List ℕ) → IsSnapshot base text makes
        → IsStateText Two base [] (index_maps base.profile (start_of makes) base.height []) image → length image ≤ 22 + length base.hash.0 + 3 * length text }
{}

/// The bytes of some makes. That of a value has 69 bytes, so a snapshot of it alone 78; and the older make stands first.
pub fn worked_texts()
    ensures value { snapshot_text (value_make 0 499000 ∷ []) ≡ one_text 0x38 0x9d 0x07 }
    ensures length { length (one_text 0x38 0x9d 0x07) ≡ 78 }
    ensures commitment { make_text (commitment_make 7 499000) ≡ point_bytes 7 ++ (0x51 ∷ 0x38 ∷ 0x9d ∷ 0x07 ∷ 0 ∷ replicate 20 0xbb) }
    ensures order { snapshot_text (value_make 1 499000 ∷ commitment_make 0 499000 ∷ []) ≡ head_bytes 2 ++ (make_text (commitment_make 0 499000) ++ make_text (value_make 1 499000)) }
{}

/// Some texts on a base of the public network at height 500,000: that of one value, at heights at which it isn't expired in the block
/// after the base; and then the first faults of others.
pub fn worked_rows()
    ensures whole { IsSnapshot base_of_rows (one_text 0x38 0x9d 0x07) (value_make 0 499000 ∷ []) }
    ensures live { IsSnapshot base_of_rows (one_text 0x82 0x14 0x07) (value_make 0 464002 ∷ []) }
    ensures expired { HasFault base_of_rows (one_text 0x81 0x14 0x07) 9 }
    ensures too_high { HasFault base_of_rows (one_text 0x21 0xa1 0x07) 9 }
    ensures cut { HasFault base_of_rows (take 77 (one_text 0x38 0x9d 0x07)) 77 }
    ensures none { HasFault base_of_rows [] 0 }
    ensures behind { HasFault base_of_rows (one_text 0x38 0x9d 0x07 ++ 0 ∷ []) 78 }
    ensures front { HasFault base_of_rows (0x4e ∷ 0x4d ∷ []) 2 }
    ensures mark { HasFault base_of_rows (0x4e ∷ 0x58 ∷ []) 1 }
    ensures version { HasFault base_of_rows (0x4e ∷ 0x4d ∷ 0x43 ∷ 0x53 ∷ 2 ∷ []) 4 }
    ensures tag { HasFault base_of_rows (head_bytes 1 ++ (point_bytes 0 ++ (0x52 ∷ []))) 45 }
    ensures long { HasFault base_of_rows (head_bytes 1 ++ (point_bytes 0 ++ (named_bytes 0x53 0x38 0x9d 0x07 ++ (0 ∷ 4 ∷ [])))) 60 }
    ensures twice { HasFault base_of_rows (head_bytes 2 ++ (make_text (commitment_make 0 499000) ++ make_text (commitment_make 0 499000))) 70 }
    ensures taken { HasFault base_of_rows (head_bytes 2 ++ (make_bytes 0 0x38 0x9d 0x07 ++ make_bytes 1 0x38 0x9d 0x07)) 78 }
{}
