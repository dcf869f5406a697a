//! The kinds of faults are told apart.

use block_grammar::{BlockKind, TxKind};

#[test]
fn kinds_are_told_apart(rt: HostRuntime) {
    assert_eq!(rt; TxKind::Cut, TxKind::Cut);
    assert_ne!(rt; TxKind::NoInput, TxKind::NoOutput);
    assert_ne!(rt;
        BlockKind::Header(TxKind::Cut),
        BlockKind::Count(TxKind::Cut)
    );
    assert_ne!(rt;
        BlockKind::Transaction(TxKind::Cut),
        BlockKind::Transaction(TxKind::BadFlag)
    );
    assert_ne!(rt; BlockKind::NoTransaction, BlockKind::Trailing);
}
