//! Digests of published messages.

use crate::comparing::same_text;
use hash160::{Ripemd, hash160, hash160_pair, ripemd160};
use nmc_base::Hash20;
use std::alloc::Global;
use std::process::Abort;
use std::test::Fail;

/// The messages of the function's publication, their RIPEMD-160 and their HASH160.
static PUBLISHED: [(&[u8], &str, &str); 8] = [
    (
        b"",
        "9c1185a5c5e9fc54612808977ee8f548b2258d31",
        "b472a266d0bd89c13706a4132ccfb16f7c3b9fcb",
    ),
    (
        b"a",
        "0bdc9d2d256b3ee9daae347be6f4dc835a467ffe",
        "994355199e516ff76c4fa4aab39337b9d84cf12b",
    ),
    (
        b"abc",
        "8eb208f7e05d987a9b044a8e98c6b087f15a0bfc",
        "bb1be98c142444d7a56aa3981c3942a978e4dc33",
    ),
    (
        b"message digest",
        "5d0689ef49d2fae572b881b123a85ffa21595f36",
        "c0f5356420849b03a32ddfa5f9204f41392bad94",
    ),
    (
        b"abcdefghijklmnopqrstuvwxyz",
        "f71c27109c692c1b56bbdceb5b9d2865b3708dbc",
        "c286a1af0947f58d1ad787385b1c2c4a976f9e71",
    ),
    (
        b"abcdbcdecdefdefgefghfghighijhijkijkljklmklmnlmnomnopnopq",
        "12a053384a9c0c88e405a06c27dcf49ada62eb2b",
        "69dda8a60e0cfc2353aa776864092c0e5ccb4834",
    ),
    (
        b"ABCDEFGHIJKLMNOPQRSTUVWXYZabcdefghijklmnopqrstuvwxyz0123456789",
        "b0e20b6e3116640286ed3a87a5713079b21f5189",
        "7aeed7ddde700075e4620e5ece9c50f1929b24c8",
    ),
    (
        b"12345678901234567890123456789012345678901234567890123456789012345678901234567890",
        "9b752e45573d4b39f4dbd3323cab82bf63326bfb",
        "175a89feae4e48f03fbb2dd0878fb4944c55ef41",
    ),
];

/// Lengths round a block and two, with the digests of the message that begins with the length as a byte
/// and goes up by 7 from byte to byte, modulo 256.
static LENGTHS: [(u8, &str, &str); 13] = [
    (
        54,
        "4cd559f9eb28c3a403c1b9872bd6b146f83f84c3",
        "008904c7ab7ecea2a9dcef686215d066b8961c46",
    ),
    (
        55,
        "8ce4447e6a334c0d0fd3e0497000d5517b290c6b",
        "53a97b89d6229eb7bd71506800c983a75812f631",
    ),
    (
        56,
        "02bbf2b0a77eb8de66c498f16384e495975a36c0",
        "19f76eeccefe41d6dc1cded70f20e5ea8073c364",
    ),
    (
        57,
        "99af5a2e30d8f8a5a5442995203d6ee074fc8d3f",
        "d4053dc8408e29b1011f7ceb5568b3018d216d0c",
    ),
    (
        63,
        "487308a77bcebfff3ec6a8961aeec6cb37674388",
        "22dd52547d5aa705f9dfcf6db4916e7f6750150e",
    ),
    (
        64,
        "fdd721c94769fc21316ecff699e63a77ef64fab4",
        "1eacc9820506ca3e601b1fdddd01cba61e3538ea",
    ),
    (
        65,
        "4f5953456c001a29a93a01b13edfd89a40613606",
        "425eb30ea682390802e44db62a23e2dd2b77d4b6",
    ),
    (
        119,
        "24df45a68bf7057239f2b9b0523d1da9cd13f088",
        "f7646a9466e5dffbf2cc26f79ff1d3ff92563606",
    ),
    (
        120,
        "57cb6d761e1c48de60fea795121dbf972f262e5d",
        "6958f19661f2202c828d56270b66a06787bdf7b4",
    ),
    (
        127,
        "2721eb2be18712dcb564a3616c52140bd5b7d953",
        "dcbbf80adc1b19444eeb2102bb8e155ff206b82f",
    ),
    (
        128,
        "55246fefe2e0f589c3cfd43279f97691117330ef",
        "0b66e8b637bc2fb251819b2b405bb9c2989af602",
    ),
    (
        129,
        "fcf81a5e473c68382acb834a0f71d582ca27914b",
        "5befa70d655e315ed64bba29656992924473ffdc",
    ),
    (
        200,
        "8d85358ee11cecf390adde8af082580bdec887d7",
        "5a10dd00394d0fcd14276dd44790748df13d74de",
    ),
];

/// The message of a length, at the front of a buffer that has room for it.
fn message<const N: usize>(length: u8) -> [u8; N] {
    let mut bytes = [0u8; N];
    let mut next = length;
    for i in 0..N {
        bytes[i] = next;
        next = next.wrapping_add(7);
    }
    bytes
}

/// Whether a digest is displayed so.
fn shows(rt: &impl Abort, alloc: Global, digest: &Hash20, want: &str) -> Result<(), Fail> {
    let found = format!(in alloc; "{}", digest)?;
    same_text(rt, found.as_str(), want);
    Ok(())
}

fn is_row(
    rt: &impl Abort,
    alloc: Global,
    text: &[u8],
    digest: &str,
    commitment: &str,
) -> Result<(), Fail> {
    shows(rt, alloc, &ripemd160(text), digest)?;
    shows(rt, alloc, &hash160(text), commitment)
}

#[test]
fn published_messages(rt: HostRuntime) -> Result<(), Fail> {
    for &(text, digest, commitment) in &PUBLISHED {
        is_row(&rt, rt.alloc(), text, digest, commitment)?;
        shows(&rt, rt.alloc(), &hash160_pair(b"", text), commitment)?;
    }
    Ok(())
}

#[test]
fn lengths_round_a_block(rt: HostRuntime) -> Result<(), Fail> {
    for &(length, digest, commitment) in &LENGTHS {
        let bytes = message::<256>(length);
        is_row(
            &rt,
            rt.alloc(),
            &bytes[..length as usize],
            digest,
            commitment,
        )?;
    }
    Ok(())
}

#[test]
fn pieces_of_every_size(rt: HostRuntime) {
    let text = message::<130>(130);
    let whole = ripemd160(&text);
    for size in 1..131 {
        let mut hasher = Ripemd::new();
        for piece in text.chunks(size) {
            hasher.update(piece);
        }
        assert!(rt; hasher.finish() == whole);
    }
}
