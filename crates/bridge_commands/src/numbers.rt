//! The readers of numbers of a command line, and their limits.
ghost use Rattle.std.specs.Prelude.{◌≡◌, ◌↔◌, ℕ, Some, IsTrue, IfSome};
ghost use Rattle.bridge_commands.specs.Words.{IsNumber, IsHeight, IsPort, AreTurns, AreBlocks, IsPageSize, IsSeed, IsPlain};

use nmc_base::HIGHEST_HEIGHT;

/// The most polls that one run makes.
pub const MOST_TURNS: u32 = 1_000_000_000;

/// The most blocks that one self-test generates.
pub const MOST_BLOCKS: u32 = 10_000;

/// The most rows that one page of a listing has.
pub const MOST_ROWS: u32 = 50;

/// Whether a number is written without a sign and without a leading zero.
fn is_plain(word: &[u8]) -> bool
    ensures { IsTrue result ↔ IsPlain word.now }
{
    match word {
        [b'+', ..] => false,
        [b'0'] => true,
        [b'0', ..] => false,
        _ => true,
    }
}

/// The number that the word is, where it lies within these limits.
fn read_number(word: &[u8], least: u64, most: u64) -> Option<u64>
    ensures found { IfSome result (λ number. IsNumber least most word.now number) }
    ensures one { (number : ℕ) → IsNumber least most word.now number → result ≡ Some number }
{
    let text = match str::from_utf8(word) {
        Ok(text) => text,
        Err(_) => return None,
    };
    match text.parse::<u64>() {
        Ok(number) if is_plain(word) && least <= number && number <= most => Some(number),
        _ => None,
    }
}

/// The number that the word is, where it lies within these limits of 32 bits.
fn read_small(word: &[u8], least: u32, most: u32) -> Option<u32>
    ensures found { IfSome result (λ number. IsNumber least most word.now number) }
    ensures one { (number : ℕ) → IsNumber least most word.now number → result ≡ Some number }
{
    match read_number(word, u64::from(least), u64::from(most)) {
        Some(number) => Some(number as u32),
        None => None,
    }
}

/// The height that the word is.
pub(crate) fn read_height(word: &[u8]) -> Option<u32>
    ensures found { IfSome result (λ height. IsHeight word.now height) }
    ensures one { (height : ℕ) → IsHeight word.now height → result ≡ Some height }
{
    read_small(word, 0, HIGHEST_HEIGHT)
}

/// The number of a port that the word is.
pub(crate) fn read_port(word: &[u8]) -> Option<u16>
    ensures found { IfSome result (λ number. IsPort word.now number) }
    ensures one { (number : ℕ) → IsPort word.now number → result ≡ Some number }
{
    match read_small(word, 1, u16::MAX as u32) {
        Some(number) => Some(number as u16),
        None => None,
    }
}

/// The number of polls that the word is.
pub(crate) fn read_turns(word: &[u8]) -> Option<u32>
    ensures found { IfSome result (λ number. AreTurns word.now number) }
    ensures one { (number : ℕ) → AreTurns word.now number → result ≡ Some number }
{
    read_small(word, 1, MOST_TURNS)
}

/// The number of generated blocks that the word is.
pub(crate) fn read_blocks(word: &[u8]) -> Option<u32>
    ensures found { IfSome result (λ number. AreBlocks word.now number) }
    ensures one { (number : ℕ) → AreBlocks word.now number → result ≡ Some number }
{
    read_small(word, 1, MOST_BLOCKS)
}

/// The seed that the word is.
pub(crate) fn read_seed(word: &[u8]) -> Option<u64>
    ensures found { IfSome result (λ number. IsSeed word.now number) }
    ensures one { (number : ℕ) → IsSeed word.now number → result ≡ Some number }
{
    read_number(word, 0, u64::MAX)
}

/// How many rows a page has, which the word is.
pub(crate) fn read_page_size(word: &[u8]) -> Option<u32>
    ensures found { IfSome result (λ size. IsPageSize word.now size) }
    ensures one { (size : ℕ) → IsPageSize word.now size → result ≡ Some size }
{
    read_small(word, 1, MOST_ROWS)
}
