//! The kinds of faults that bytes may have which are no block.

/// Why bytes are no transaction, or no header with its merge-mining part.
#[derive(Clone, Copy, PartialEq, Eq, Debug)]
pub enum TxKind {
    /// The bytes end before the transaction does. The place is the input's length.
    Cut,
    /// A compact size in a longer form than its number needs. The place is the form's last byte.
    LongForm,
    /// The marker 00, and then no flag 01 (BIP 144). The place is the byte where the flag would stand.
    BadFlag,
    /// A transaction without an input. The place is the number 00 behind marker and flag.
    NoInput,
    /// A transaction without an output. The place is the number 00.
    NoOutput,
    /// Marker and flag, and no input has an item of witness. The place is the number 00 of the last input's list.
    EmptyWitness,
}

/// Why bytes are no block, with the part in which the place stands or, where the input is cut, would stand.
#[derive(Clone, Copy, PartialEq, Eq, Debug)]
pub enum BlockKind {
    /// In the header with its merge-mining part.
    Header(TxKind),
    /// In the number of transactions.
    Count(TxKind),
    /// The number of transactions is 0. The place is that number.
    NoTransaction,
    /// In a transaction.
    Transaction(TxKind),
    /// Bytes behind the last transaction. The place is the first of them.
    Trailing,
}
