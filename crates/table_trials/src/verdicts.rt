//! What the rules say of a transaction.

ghost use Rattle.std.specs.Prelude.{◌≡◌, ◌<◌, ◌≤◌, length, IsTrue};

use crate::comparing::same_at;
use crate::outputs::output;
use name_rules::{CoinRef, Verdict, check};
use name_script::NameOp;
use nmc_base::{Hash20, OutPoint, Profile, Steps};
use std::alloc::Global;
use std::marker::Brand;
use std::process::Abort;
use std::sync::ledger::{Blank, Ledger};
use std::test::Fail;
use tx_reader::{Outputs, read_tx, txid};

mod built;
mod held;

use built::transaction;
use held::Held;

const NAMED: u32 = 0x7100;

const LEAST: u64 = 1_000_000;

/// HASH160 of the salt and the name "saltd/example".
const EXAMPLE: Hash20 = Hash20([
    0x51, 0xe5, 0x8b, 0x70, 0x75, 0x6a, 0x93, 0x4c, 0x98, 0x4c, 0xb8, 0x03, 0x05, 0xaa, 0x80, 0xe1,
    0x93, 0xa0, 0x23, 0x61,
]);

/// HASH160 of nothing: the commitment to the empty name with an empty salt.
const NOTHING: Hash20 = Hash20([
    0xb4, 0x72, 0xa2, 0x66, 0xd0, 0xbd, 0x89, 0xc1, 0x37, 0x06, 0xa4, 0x13, 0x2c, 0xcf, 0xb1, 0x6f,
    0x7c, 0x3b, 0x9f, 0xcb,
]);

/// HASH160 of 20 letters r and 255 letters a.
const LONGEST: Hash20 = Hash20([
    0x24, 0xc0, 0xcf, 0x35, 0xe1, 0x2c, 0x94, 0xa4, 0xd2, 0xd5, 0x47, 0x4e, 0x88, 0x95, 0x4f, 0x91,
    0x04, 0xc7, 0xa2, 0x24,
]);

/// What an input of this number spends.
fn point(number: u8) -> OutPoint {
    output(number, u32::from(number))
}

fn commitment(hash: &Hash20) -> CoinRef<'_> {
    CoinRef::New { hash, height: 100 }
}

fn coin_of(name: &[u8]) -> CoinRef<'_> {
    CoinRef::Named { name, height: 100 }
}

/// Whether there are at most ten.
fn few(outputs: Outputs<'_>) -> bool
    ensures { IsTrue result → length outputs.entry ≤ 10 }
{
    let mut left = 10u8;
    for _output in outputs {
        if left == 0 {
            return false;
        }
        left -= 1;
    }
    true
}

/// The code of the refusal, or 0 to 3: plain, a commitment, a name opened, a name updated.
fn number(verdict: &Verdict<'_>) -> u8 {
    match verdict {
        Verdict::Plain => 0,
        Verdict::New { .. } => 1,
        Verdict::First { .. } => 2,
        Verdict::Update { .. } => 3,
        Verdict::Refused(refusal) => refusal.number(),
    }
}

/// The number of the verdict on a transaction, at this height of the private network. None where the bytes are none, or
/// have more outputs than ten.
fn said<L: Ledger>(held: &Held<'_>, bytes: &[u8], height: u16, steps: &mut Steps<L>) -> Option<u8> {
    let (tx, _len) = read_tx(bytes).ok()?;
    if !few(tx.outputs()) {
        return None;
    }
    let height = u32::from(height);
    let verdict = check(held, &tx, &txid(&tx), height, Profile::Regtest, steps);
    Some(number(&verdict))
}

/// A row of a table: version, inputs, amount and operation of the one output, height, and the number of the verdict.
type Row = (u32, &'static [u8], u64, Option<NameOp<'static>>, u16, u8);

fn verdict_of<L: Ledger>(
    alloc: Global,
    held: &Held<'_>,
    row: &Row,
    steps: &mut Steps<L>,
) -> Result<Option<u8>, Fail> {
    let (version, inputs, amount, operation, height, _wanted) = *row;
    let bytes = transaction(alloc, version, inputs, &[(amount, operation)])?;
    Ok(said(held, &bytes, height, steps))
}

fn each_row<L: Ledger>(
    rt: &impl Abort,
    alloc: Global,
    held: &Held<'_>,
    rows: &[Row],
    steps: &mut Steps<L>,
) -> Result<(), Fail> {
    for (i, row) in rows.iter().enumerate() {
        let got = verdict_of(alloc, held, row, steps)?;
        same_at(rt, got, row.5, i);
    }
    Ok(())
}

/// The coins of the tables: two commitments, two names, and the commitment to the longest name with the longest salt.
fn table_coins() -> [(OutPoint, CoinRef<'static>); 5] {
    [
        (point(1), commitment(&EXAMPLE)),
        (point(2), coin_of(b"d/example")),
        (point(3), commitment(&NOTHING)),
        (point(4), coin_of(b"d/other")),
        (point(5), commitment(&LONGEST)),
    ]
}

const NAME_255: [u8; 255] = [b'a'; 255];

const NAME_256: [u8; 256] = [b'a'; 256];

const VALUE_1023: [u8; 1023] = [b'v'; 1023];

const VALUE_1024: [u8; 1024] = [b'v'; 1024];

const RAND_20: [u8; 20] = [b'r'; 20];

const RAND_21: [u8; 21] = [b'r'; 21];

const HASH_19: [u8; 19] = [7; 19];

const HASH_20: [u8; 20] = [7; 20];

const HASH_21: [u8; 21] = [7; 21];

const OPENS: Option<NameOp<'static>> = Some(NameOp::First {
    name: b"d/example",
    rand: b"salt",
    value: b"{}",
});

const RENEWS: Option<NameOp<'static>> = Some(NameOp::Update {
    name: b"d/example",
    value: b"{}",
});

const LONGEST_FIRST: Option<NameOp<'static>> = Some(NameOp::First {
    name: &NAME_255,
    rand: &RAND_20,
    value: &VALUE_1023,
});

const LONG_RAND: Option<NameOp<'static>> = Some(NameOp::First {
    name: b"",
    rand: &RAND_21,
    value: b"",
});

const EMPTY: Option<NameOp<'static>> = Some(NameOp::First {
    name: b"",
    rand: b"",
    value: b"",
});

const ZERO_RAND: Option<NameOp<'static>> = Some(NameOp::First {
    name: b"",
    rand: &[0],
    value: b"",
});

const SWAPPED: Option<NameOp<'static>> = Some(NameOp::First {
    name: b"salt",
    rand: b"d/example",
    value: b"{}",
});

const LONG_NAME: Option<NameOp<'static>> = Some(NameOp::Update {
    name: &NAME_256,
    value: &VALUE_1024,
});

const LONG_VALUE: Option<NameOp<'static>> = Some(NameOp::Update {
    name: &NAME_255,
    value: &VALUE_1024,
});

const LONGEST_VALUE: Option<NameOp<'static>> = Some(NameOp::Update {
    name: b"d/example",
    value: &VALUE_1023,
});

const COMMITS: Option<NameOp<'static>> = Some(NameOp::New { hash: &HASH_20 });

const SHORT: Option<NameOp<'static>> = Some(NameOp::New { hash: &HASH_19 });

const LONG: Option<NameOp<'static>> = Some(NameOp::New { hash: &HASH_21 });

/// The rules up to the coin that is spent, and then those on it: each kind, each refusal but 11 and 28, and the next to each
/// limit. The empty name stands since height 100.
static ROWS: [Row; 32] = [
    (1, &[9], 0, None, 200, 0),
    (NAMED, &[9], LEAST, COMMITS, 200, 1),
    (1, &[1, 9, 1], 0, None, 200, 10),
    (NAMED, &[9, 2, 1], 0, RENEWS, 200, 10),
    (1, &[2], 0, RENEWS, 200, 12),
    (0x17100, &[9], 0, RENEWS, 200, 13),
    (NAMED, &[2], 0, None, 200, 14),
    (NAMED, &[2], LEAST - 1, LONG, 200, 15),
    (NAMED, &[9], LEAST - 1, OPENS, 200, 15),
    (NAMED, &[2], LEAST, LONG, 200, 16),
    (NAMED, &[9], LEAST, SHORT, 200, 17),
    (NAMED, &[9], LEAST, LONG, 200, 17),
    (NAMED, &[9], LEAST, OPENS, 200, 18),
    (NAMED, &[9], LEAST, LONG_NAME, 200, 18),
    (NAMED, &[2], LEAST, LONG_NAME, 200, 19),
    (NAMED, &[2], LEAST, LONG_VALUE, 200, 20),
    (NAMED, &[2], LEAST, LONGEST_VALUE, 129, 3),
    (NAMED, &[2], LEAST, RENEWS, 129, 3),
    (NAMED, &[1], LEAST, RENEWS, 129, 21),
    (NAMED, &[4], LEAST, RENEWS, 129, 22),
    (NAMED, &[2], LEAST, OPENS, 111, 23),
    (NAMED, &[1], LEAST, LONG_RAND, 111, 24),
    (NAMED, &[9, 1, 9], LEAST, OPENS, 111, 24),
    (NAMED, &[9, 1, 9], LEAST, OPENS, 112, 2),
    (NAMED, &[5], LEAST, LONGEST_FIRST, 112, 2),
    (NAMED, &[1], LEAST, LONG_RAND, 112, 25),
    (NAMED, &[1], LEAST, LONGEST_FIRST, 112, 26),
    (NAMED, &[1], LEAST, SWAPPED, 112, 26),
    (NAMED, &[1], LEAST, EMPTY, 129, 26),
    (NAMED, &[3], LEAST, EMPTY, 129, 27),
    (NAMED, &[3], LEAST, EMPTY, 130, 2),
    (NAMED, &[3], LEAST, ZERO_RAND, 130, 26),
];

fn table<L: Ledger>(rt: &impl Abort, alloc: Global, blank: Blank) -> Result<(), Fail>
    requires name { blank.name ≡ L.name }
    requires parts { blank.parts ≡ L.parts }
    requires some { 0 < blank.parts }
{
    let mut steps = Steps::<L>::new(blank);
    let coins = table_coins();
    let held = Held {
        coins: &coins,
        name: b"",
        height: 100,
    };
    each_row(rt, alloc, &held, &ROWS, &mut steps)?;
    outputs_in_order(rt, alloc, &held, &mut steps)
}

#[test]
fn verdicts_of_the_table(rt: HostRuntime) -> Result<(), Fail> {
    table::<Brand>(&rt, rt.alloc(), Blank::new(1))
}

/// Two outputs that open a name, with another between them.
static TWO: [(u64, Option<NameOp<'static>>); 3] = [(LEAST, OPENS), (0, None), (LEAST, OPENS)];

/// The number of the verdict on a transaction of the two.
fn verdict_of_two<L: Ledger>(
    alloc: Global,
    held: &Held<'_>,
    version: u32,
    inputs: &[u8],
    steps: &mut Steps<L>,
) -> Result<Option<u8>, Fail> {
    let bytes = transaction(alloc, version, inputs, &TWO)?;
    Ok(said(held, &bytes, 112, steps))
}

/// Two name outputs are refused, and before them two name inputs.
fn outputs_in_order<L: Ledger>(
    rt: &impl Abort,
    alloc: Global,
    held: &Held<'_>,
    steps: &mut Steps<L>,
) -> Result<(), Fail> {
    same_at(rt, verdict_of_two(alloc, held, NAMED, &[1], steps)?, 11, 0);
    same_at(rt, verdict_of_two(alloc, held, 1, &[1, 2], steps)?, 10, 1);
    Ok(())
}

/// Rows whose output stands where a coin is already: that is the last thing refused.
static MADE_TWICE: [Row; 4] = [
    (NAMED, &[9], LEAST, COMMITS, 120, 28),
    (NAMED, &[1], LEAST, OPENS, 120, 28),
    (NAMED, &[2], LEAST, RENEWS, 120, 28),
    (NAMED, &[1], LEAST, EMPTY, 120, 26),
];

/// The outpoint of the first output of the one transaction that is so built.
fn made_by(alloc: Global, row: &Row) -> Result<OutPoint, Fail> {
    let bytes = transaction(alloc, row.0, row.1, &[(row.2, row.3)])?;
    match read_tx(&bytes) {
        Ok((tx, _len)) => Ok(OutPoint {
            txid: txid(&tx),
            index: 0,
        }),
        Err(_) => Err("no transaction")?,
    }
}

/// The number of the verdict on the row's transaction where there is a coin at its output already.
fn verdict_of_twice<L: Ledger>(
    alloc: Global,
    row: &Row,
    steps: &mut Steps<L>,
) -> Result<Option<u8>, Fail> {
    let coins = [
        (point(1), commitment(&EXAMPLE)),
        (point(2), coin_of(b"d/example")),
        (made_by(alloc, row)?, coin_of(b"d/other")),
    ];
    let held = Held {
        coins: &coins,
        name: b"",
        height: 100,
    };
    verdict_of(alloc, &held, row, steps)
}

fn made_twice<L: Ledger>(rt: &impl Abort, alloc: Global, blank: Blank) -> Result<(), Fail>
    requires name { blank.name ≡ L.name }
    requires parts { blank.parts ≡ L.parts }
    requires some { 0 < blank.parts }
{
    let mut steps = Steps::<L>::new(blank);
    for (i, row) in MADE_TWICE.iter().enumerate() {
        same_at(rt, verdict_of_twice(alloc, row, &mut steps)?, row.5, i);
    }
    Ok(())
}

#[test]
fn outpoints_made_twice(rt: HostRuntime) -> Result<(), Fail> {
    made_twice::<Brand>(&rt, rt.alloc(), Blank::new(1))
}
