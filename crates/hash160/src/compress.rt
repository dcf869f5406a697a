//! The compression of RIPEMD-160.

// The compression of a block of 64 bytes: two lines of 80 steps.

ghost use Rattle.std.specs.Prelude.{◌≡◌, ◌+◌, ◌<◌, ◌≤◌, length};
ghost use Rattle.hash160.specs.Ripemd160.{bit_function, block_of, compress, joined, left, right, step, steps, word_at};

// What a line adds in each group of sixteen steps, and for each step the place of the word that it reads
// and the number of bits that it rotates by.
const LEFT_CONSTANTS: [u32; 5] = [0, 0x5a82_7999, 0x6ed9_eba1, 0x8f1b_bcdc, 0xa953_fd4e];

const LEFT_PLACES: [usize; 80] = [
    0, 1, 2, 3, 4, 5, 6, 7, 8, 9, 10, 11, 12, 13, 14, 15, 7, 4, 13, 1, 10, 6, 15, 3, 12, 0, 9, 5,
    2, 14, 11, 8, 3, 10, 14, 4, 9, 15, 8, 1, 2, 7, 0, 6, 13, 11, 5, 12, 1, 9, 11, 10, 0, 8, 12, 4,
    13, 3, 7, 15, 14, 5, 6, 2, 4, 0, 5, 9, 7, 12, 2, 10, 14, 1, 3, 8, 11, 6, 15, 13,
];

const LEFT_ROTATIONS: [u32; 80] = [
    11, 14, 15, 12, 5, 8, 7, 9, 11, 13, 14, 15, 6, 7, 9, 8, 7, 6, 8, 13, 11, 9, 7, 15, 7, 12, 15,
    9, 11, 7, 13, 12, 11, 13, 6, 7, 14, 9, 13, 15, 14, 8, 13, 6, 5, 12, 7, 5, 11, 12, 14, 15, 14,
    15, 9, 8, 9, 14, 5, 6, 8, 6, 5, 12, 9, 15, 5, 11, 6, 8, 13, 12, 5, 12, 13, 14, 11, 8, 5, 6,
];

const RIGHT_CONSTANTS: [u32; 5] = [0x50a2_8be6, 0x5c4d_d124, 0x6d70_3ef3, 0x7a6d_76e9, 0];

const RIGHT_PLACES: [usize; 80] = [
    5, 14, 7, 0, 9, 2, 11, 4, 13, 6, 15, 8, 1, 10, 3, 12, 6, 11, 3, 7, 0, 13, 5, 10, 14, 15, 8, 12,
    4, 9, 1, 2, 15, 5, 1, 3, 7, 14, 6, 9, 11, 8, 12, 2, 10, 0, 4, 13, 8, 6, 4, 1, 3, 11, 15, 0, 5,
    12, 2, 13, 9, 7, 10, 14, 12, 15, 10, 4, 1, 5, 8, 7, 6, 2, 13, 14, 0, 3, 9, 11,
];

const RIGHT_ROTATIONS: [u32; 80] = [
    8, 9, 9, 11, 13, 15, 15, 5, 7, 7, 8, 11, 14, 14, 12, 6, 9, 13, 15, 7, 12, 8, 9, 11, 7, 7, 12,
    7, 6, 15, 13, 11, 9, 7, 15, 11, 8, 6, 6, 14, 12, 13, 5, 14, 13, 13, 7, 5, 15, 5, 8, 11, 14, 14,
    6, 14, 6, 9, 12, 9, 12, 5, 15, 8, 8, 5, 12, 9, 12, 5, 14, 6, 8, 13, 6, 5, 15, 13, 11, 11,
];

#[inline(always)]
fn bit_function(n: usize, x: u32, y: u32, z: u32) -> u32
    ensures { result ≡ bit_function n x y z }
{
    if n == 0 {
        x ^ y ^ z
    } else if n == 1 {
        (x & y) | (!x & z)
    } else if n == 2 {
        (x | !y) ^ z
    } else if n == 3 {
        (x & z) | (y & !z)
    } else {
        x ^ (y | !z)
    }
}

fn word_at(block: &[u8], i: usize) -> u32
    requires { i + 4 ≤ length block.now }
    ensures { result ≡ word_at block.now i }
{
    u32::from_le_bytes([block[i], block[i + 1], block[i + 2], block[i + 3]])
}

#[inline(always)]
#[tactic(auto, unfolding(crate::specs::Ripemd160::block_of))]
fn block_of(bytes: &[u8]) -> [u32; 16]
    requires { length bytes.now ≡ 64 }
    ensures { result ≡ block_of bytes.now }
{
    [
        word_at(bytes, 0),
        word_at(bytes, 4),
        word_at(bytes, 8),
        word_at(bytes, 12),
        word_at(bytes, 16),
        word_at(bytes, 20),
        word_at(bytes, 24),
        word_at(bytes, 28),
        word_at(bytes, 32),
        word_at(bytes, 36),
        word_at(bytes, 40),
        word_at(bytes, 44),
        word_at(bytes, 48),
        word_at(bytes, 52),
        word_at(bytes, 56),
        word_at(bytes, 60),
    ]
}

#[inline(always)]
fn left_step(block: &[u32; 16], v: [u32; 5], j: usize) -> [u32; 5]
    requires { j < 80 }
    ensures { result ≡ step left block.now v j }
{
    let [a, b, c, d, e] = v;
    let sum = a
        .wrapping_add(bit_function(j / 16, b, c, d))
        .wrapping_add(block[LEFT_PLACES[j] % 16])
        .wrapping_add(LEFT_CONSTANTS[j / 16]);
    let turned = sum.rotate_left(LEFT_ROTATIONS[j]).wrapping_add(e);
    [e, turned, b, c.rotate_left(10), d]
}

#[inline(always)]
fn right_step(block: &[u32; 16], v: [u32; 5], j: usize) -> [u32; 5]
    requires { j < 80 }
    ensures { result ≡ step right block.now v j }
{
    let [a, b, c, d, e] = v;
    let sum = a
        .wrapping_add(bit_function(4 - j / 16, b, c, d))
        .wrapping_add(block[RIGHT_PLACES[j] % 16])
        .wrapping_add(RIGHT_CONSTANTS[j / 16]);
    let turned = sum.rotate_left(RIGHT_ROTATIONS[j]).wrapping_add(e);
    [e, turned, b, c.rotate_left(10), d]
}

// Four at a time: a function that grows too large is not inlined, and then its step is no constant.
#[inline(always)]
fn four_left_steps(block: &[u32; 16], v: [u32; 5], j: usize) -> [u32; 5]
    requires { j + 4 ≤ 80 }
    ensures { result ≡ steps left block.now v j 4 }
{
    let v = left_step(block, v, j);
    let v = left_step(block, v, j + 1);
    let v = left_step(block, v, j + 2);
    left_step(block, v, j + 3)
}

fn left_line(block: &[u32; 16], h: [u32; 5]) -> [u32; 5]
    ensures { result ≡ steps left block.now h 0 80 }
{
    let v = four_left_steps(block, h, 0);
    let v = four_left_steps(block, v, 4);
    let v = four_left_steps(block, v, 8);
    let v = four_left_steps(block, v, 12);
    let v = four_left_steps(block, v, 16);
    let v = four_left_steps(block, v, 20);
    let v = four_left_steps(block, v, 24);
    let v = four_left_steps(block, v, 28);
    let v = four_left_steps(block, v, 32);
    let v = four_left_steps(block, v, 36);
    let v = four_left_steps(block, v, 40);
    let v = four_left_steps(block, v, 44);
    let v = four_left_steps(block, v, 48);
    let v = four_left_steps(block, v, 52);
    let v = four_left_steps(block, v, 56);
    let v = four_left_steps(block, v, 60);
    let v = four_left_steps(block, v, 64);
    let v = four_left_steps(block, v, 68);
    let v = four_left_steps(block, v, 72);
    four_left_steps(block, v, 76)
}

#[inline(always)]
fn four_right_steps(block: &[u32; 16], v: [u32; 5], j: usize) -> [u32; 5]
    requires { j + 4 ≤ 80 }
    ensures { result ≡ steps right block.now v j 4 }
{
    let v = right_step(block, v, j);
    let v = right_step(block, v, j + 1);
    let v = right_step(block, v, j + 2);
    right_step(block, v, j + 3)
}

fn right_line(block: &[u32; 16], h: [u32; 5]) -> [u32; 5]
    ensures { result ≡ steps right block.now h 0 80 }
{
    let v = four_right_steps(block, h, 0);
    let v = four_right_steps(block, v, 4);
    let v = four_right_steps(block, v, 8);
    let v = four_right_steps(block, v, 12);
    let v = four_right_steps(block, v, 16);
    let v = four_right_steps(block, v, 20);
    let v = four_right_steps(block, v, 24);
    let v = four_right_steps(block, v, 28);
    let v = four_right_steps(block, v, 32);
    let v = four_right_steps(block, v, 36);
    let v = four_right_steps(block, v, 40);
    let v = four_right_steps(block, v, 44);
    let v = four_right_steps(block, v, 48);
    let v = four_right_steps(block, v, 52);
    let v = four_right_steps(block, v, 56);
    let v = four_right_steps(block, v, 60);
    let v = four_right_steps(block, v, 64);
    let v = four_right_steps(block, v, 68);
    let v = four_right_steps(block, v, 72);
    four_right_steps(block, v, 76)
}

/// Takes a block of 64 bytes into the chaining variables.
pub fn compress(state: &mut [u32; 5], block: &[u8])
    requires { length block.now ≡ 64 }
    ensures { state.new ≡ compress state.old (block_of block.now) }
{
    let words = block_of(block);
    let l = left_line(&words, *state);
    let r = right_line(&words, *state);
    *state = [
        state[1].wrapping_add(l[2]).wrapping_add(r[3]),
        state[2].wrapping_add(l[3]).wrapping_add(r[4]),
        state[3].wrapping_add(l[4]).wrapping_add(r[0]),
        state[4].wrapping_add(l[0]).wrapping_add(r[1]),
        state[0].wrapping_add(l[1]).wrapping_add(r[2]),
    ];
}
