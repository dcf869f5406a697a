//! Laws of the definitions. Each is the contract of a function that does nothing.

ghost use Rattle.std.specs.Prelude.{◌≡◌, ℕ, ◌-◌, ◌<◌, ◌≤◌, ◌↔◌, List, [], ◌∷◌, ◌++◌, length, drop, slice_index, Some, None, Ok, Err, IsTrue};
ghost use Rattle.block_grammar.specs.declared.kinds.TxKind.{TxKind};
ghost use Rattle.block_grammar.specs.declared.kinds.TxKind.TheVariants.{Cut, LongForm, NoInput};
ghost use Rattle.block_grammar.specs.declared.kinds.BlockKind.{BlockKind};
ghost use Rattle.block_grammar.specs.declared.kinds.BlockKind.TheVariants.{NoTransaction};
ghost use Rattle.block_grammar.specs.CompactSize.{compact_size};
ghost use Rattle.block_grammar.specs.Examples.{tiny_transaction, tiny_text, longer_count, no_inputs, no_transactions};
ghost use Rattle.block_grammar.specs.Kinds.{is_cut, is_cut_block};
ghost use Rattle.block_grammar.specs.Transaction.{Transaction, IsTransaction, FitsTransaction, transaction_text, stripped_text};
ghost use Rattle.block_grammar.specs.Header.{Header, IsHeader, FitsHeader, header_text};
ghost use Rattle.block_grammar.specs.Block.{Block, IsBlock};
ghost use Rattle.block_grammar.specs.Merkle.{merkle_root_of, paired_row};
ghost use Rattle.block_grammar.specs.Fault.{IsFaultPlace, IsFrontPlace};
ghost use Rattle.block_grammar.specs.FaultRows.{TransactionByte, HeaderByte, IsTableFault};
ghost use Rattle.block_grammar.specs.BlockRows.{BlockFaultRow};
ghost use Rattle.block_grammar.specs.Reading.{transaction_from, header_from, block_from};

/// A transaction is read as it is spelled, whatever follows; and where none is read, the place is that of the first
/// fault.
pub fn transaction_law()
    ensures again { (front rest : List ℕ) (t : Transaction) → IsTransaction front t → transaction_from (front ++ rest) ≡ Ok (t, rest) }
    ensures place { (bytes : List ℕ) (kind : TxKind) (rest : List ℕ) → ((i : ℕ) → slice_index bytes i < 256)
        → transaction_from bytes ≡ Err (kind, rest) → IsFrontPlace transaction_text FitsTransaction bytes (length bytes - length rest) }
    ensures cut { (bytes : List ℕ) (kind : TxKind) (rest : List ℕ) → ((i : ℕ) → slice_index bytes i < 256)
        → transaction_from bytes ≡ Err (kind, rest) → IsTrue (is_cut kind) ↔ (length bytes - length rest ≡ length bytes) }
{}

/// Where no transaction, no header or no block is read, the kind of the fault and its place are those of the table, and the
/// other way round.
pub fn fault_law()
    ensures transaction { (bytes : List ℕ) (kind : TxKind) (place : ℕ) → ((i : ℕ) → slice_index bytes i < 256)
        → ((transaction_from bytes ≡ Err (kind, drop place bytes)) × (place ≤ length bytes)) ↔ IsTableFault transaction_text FitsTransaction TransactionByte bytes kind place }
    ensures header { (bytes : List ℕ) (kind : TxKind) (place : ℕ) → ((i : ℕ) → slice_index bytes i < 256)
        → ((header_from bytes ≡ Err (kind, drop place bytes)) × (place ≤ length bytes)) ↔ IsTableFault header_text FitsHeader HeaderByte bytes kind place }
    ensures block { (bytes : List ℕ) (kind : BlockKind) (place : ℕ) → ((i : ℕ) → slice_index bytes i < 256)
        → ((block_from bytes ≡ Err (kind, drop place bytes)) × (place ≤ length bytes)) ↔ BlockFaultRow kind bytes place }
{}

/// No transaction's text begins another's: bytes have one front at most that is a transaction.
pub fn one_transaction()
    ensures { (front rest other more : List ℕ) (t u : Transaction) → IsTransaction front t
        → IsTransaction other u → front ++ rest ≡ other ++ more → (front ≡ other) × (t ≡ u) }
{}

/// A plain transaction's txid covers all of it.
pub fn txid_law()
    ensures { (t : Transaction) → t.witness ≡ None → stripped_text t ≡ transaction_text t }
{}

/// The same of headers.
pub fn header_law()
    ensures again { (front rest : List ℕ) (h : Header) → IsHeader front h → header_from (front ++ rest) ≡ Ok (h, rest) }
    ensures place { (bytes : List ℕ) (kind : TxKind) (rest : List ℕ) → ((i : ℕ) → slice_index bytes i < 256)
        → header_from bytes ≡ Err (kind, rest) → IsFrontPlace header_text FitsHeader bytes (length bytes - length rest) }
    ensures cut { (bytes : List ℕ) (kind : TxKind) (rest : List ℕ) → ((i : ℕ) → slice_index bytes i < 256)
        → header_from bytes ≡ Err (kind, rest) → IsTrue (is_cut kind) ↔ (length bytes - length rest ≡ length bytes) }
{}

/// Bytes are read as the block that they are; and where none is read, the place is that of the first fault.
pub fn block_law()
    ensures read { (bytes : List ℕ) (b : Block) → ((i : ℕ) → slice_index bytes i < 256)
        → (block_from bytes ≡ Ok b) ↔ IsBlock bytes b }
    ensures place { (bytes : List ℕ) (kind : BlockKind) (rest : List ℕ) → ((i : ℕ) → slice_index bytes i < 256)
        → block_from bytes ≡ Err (kind, rest) → IsFaultPlace bytes (length bytes - length rest) }
    ensures cut { (bytes : List ℕ) (kind : BlockKind) (rest : List ℕ) → ((i : ℕ) → slice_index bytes i < 256)
        → block_from bytes ≡ Err (kind, rest) → IsTrue (is_cut_block kind) ↔ (length bytes - length rest ≡ length bytes) }
{}

/// Bytes are the text of one block at most.
pub fn one_block()
    ensures { (bytes : List ℕ) (b c : Block) → IsBlock bytes b → IsBlock bytes c → b ≡ c }
{}

/// The Merkle root of one hash is that hash, and the root of more is that of the row above them.
pub fn merkle_law()
    ensures one { (hash : List ℕ) → merkle_root_of (hash ∷ []) ≡ hash }
    ensures more { (left right : List ℕ) (hashes : List (List ℕ))
        → merkle_root_of (left ∷ right ∷ hashes) ≡ merkle_root_of (paired_row (left ∷ right ∷ hashes)) }
{}

/// The texts of some numbers, and of a small transaction.
pub fn small_texts()
    ensures one_byte { compact_size 252 ≡ 252 ∷ [] }
    ensures three_bytes { compact_size 253 ≡ 0xFD ∷ 253 ∷ 0 ∷ [] }
    ensures last_of_three { compact_size 0xFFFF ≡ 0xFD ∷ 0xFF ∷ 0xFF ∷ [] }
    ensures five_bytes { compact_size 0x10000 ≡ 0xFE ∷ 0 ∷ 0 ∷ 1 ∷ 0 ∷ [] }
    ensures nine_bytes { compact_size 0x1_0000_0000 ≡ 0xFF ∷ 0 ∷ 0 ∷ 0 ∷ 0 ∷ 1 ∷ 0 ∷ 0 ∷ 0 ∷ [] }
    ensures transaction { transaction_text tiny_transaction ≡ tiny_text }
{}

/// The faults of some bytes: a number in a longer form, whose last byte has offset 6; a transaction without an input; a
/// version that is cut; and a block without a transaction.
pub fn small_faults()
    ensures longer_form { IsTableFault transaction_text FitsTransaction TransactionByte longer_count LongForm 6 }
    ensures no_input { IsTableFault transaction_text FitsTransaction TransactionByte no_inputs NoInput 6 }
    ensures cut { IsTableFault transaction_text FitsTransaction TransactionByte (1 ∷ 0 ∷ []) Cut 2 }
    ensures no_transaction { BlockFaultRow NoTransaction no_transactions 80 }
{}
