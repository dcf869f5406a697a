//! Laws of journals. Each is the contract of a function that does nothing.

ghost use Rattle.std.specs.Prelude.{◌≡◌, ◌⊎◌, ◌+◌, ◌<◌, ◌^◌, ◌∷◌, ◌++◌, [], ℕ, List, length, take, All};
ghost use Rattle.disk_model.specs.FileState.{FileState, IsSettled};
ghost use Rattle.gate_journal.specs.Stand.{Stand, IsAtGate, text_before};
ghost use Rattle.gate_journal.specs.Gate.{ClosedAfter, IsClosed, IsRecordAt, record_text};
ghost use Rattle.gate_journal.specs.Records.{Fits, HasRecords, HasRecordsTo, IsArea, records_text};

/// The laws of a journal's records. What stands behind a front is one list of records; each stands at its
/// gate and the gate behind the last is closed, so that reading finds them in order and never damage; a
/// text that ends as before or with a record more is one of those records or with that one more; and where a
/// journal has come to a closed gate, the text before it is all of them.
pub fn records_of_a_journal()
    ensures told_apart { (front file : List ℕ) (records others : List (List ℕ))
        → HasRecords front records file → HasRecords front others file → records ≡ others }
    ensures each { (front : List ℕ) (before : List (List ℕ)) (record_is : List ℕ) (after : List (List ℕ)) (file : List ℕ) (limit : ℕ)
        → HasRecords front (before ++ record_is ∷ after) file → length (front ++ records_text (before ++ record_is ∷ after)) < limit
        → IsRecordAt file (length (front ++ records_text before)) limit record_is }
    ensures end { (front : List ℕ) (records : List (List ℕ)) (file : List ℕ)
        → HasRecords front records file → IsClosed file (length (front ++ records_text records)) }
    ensures joined { (front : List ℕ) (records : List (List ℕ)) (record_is : List ℕ)
        → front ++ records_text (records ++ record_is ∷ []) ≡ (front ++ records_text records) ++ record_text record_is }
    ensures one_more { (front : List ℕ) (records : List (List ℕ)) (record_is before image : List ℕ)
        → before ≡ front ++ records_text records → All Fits records → Fits record_is
        → ClosedAfter before image ⊎ ClosedAfter (before ++ record_text record_is) image
        → HasRecords front records image ⊎ HasRecords front (records ++ record_is ∷ []) image }
    ensures at_gate { (journal : Stand) (file : FileState) (front : List ℕ) (records : List (List ℕ))
        → 0 < journal.length → IsAtGate journal file → text_before journal file.bytes ≡ front ++ records_text records → All Fits records
        → HasRecords front records file.bytes }
{}

/// The laws of the records up to a gate, as reading comes to them. There are none at first, and a record that
/// stands at the gate is one more; at a closed gate they are all. Of two lists up to two gates one begins with
/// the other, and all records begin with those up to a gate.
pub fn records_up_to_a_gate()
    ensures none { (front file : List ℕ) → take (length front) file ≡ front → length front < length file
        → HasRecordsTo (length front) front [] file }
    ensures next { (gate limit : ℕ) (front : List ℕ) (records : List (List ℕ)) (record_is file : List ℕ)
        → HasRecordsTo gate front records file → IsRecordAt file gate limit record_is
        → HasRecordsTo (gate + length (record_text record_is)) front (records ++ record_is ∷ []) file }
    ensures all { (gate : ℕ) (front : List ℕ) (records : List (List ℕ)) (file : List ℕ)
        → HasRecordsTo gate front records file → IsClosed file gate → HasRecords front records file }
    ensures place { (gate : ℕ) (front : List ℕ) (records : List (List ℕ)) (file : List ℕ)
        → HasRecordsTo gate front records file → gate ≡ length (front ++ records_text records) }
    ensures ended { (front : List ℕ) (records : List (List ℕ)) (file : List ℕ)
        → HasRecords front records file → HasRecordsTo (length (front ++ records_text records)) front records file }
    ensures prefixes { (gate other : ℕ) (front : List ℕ) (some others : List (List ℕ)) (file : List ℕ)
        → HasRecordsTo gate front some file → HasRecordsTo other front others file
        → (take (length some) others ≡ some) ⊎ (take (length others) some ≡ others) }
    ensures among { (gate : ℕ) (front : List ℕ) (some records : List (List ℕ)) (file : List ℕ)
        → HasRecordsTo gate front some file → HasRecords front records file → take (length some) records ≡ some }
{}

/// The law of closed gates. In a settled file a journal as long as a front, its records and their closed gate
/// has come to that gate. `records_of_a_journal` has the converse.
pub fn gate_behind_records()
    ensures { (journal : Stand) (file : FileState) (front : List ℕ) (records : List (List ℕ))
        → IsSettled file → HasRecords front records file.bytes → journal.length ≡ length (front ++ records_text records) + 1
        → IsAtGate journal file × (text_before journal file.bytes ≡ front ++ records_text records) }
{}

/// The law of areas: a file that begins with an image has one image and one list of records.
pub fn image_and_records_of_an_area()
    ensures { (file image other : List ℕ) (records others : List (List ℕ))
        → length image < 2 ^ 64 → length other < 2 ^ 64 → IsArea image records file → IsArea other others file
        → (image ≡ other) × (records ≡ others) }
{}
