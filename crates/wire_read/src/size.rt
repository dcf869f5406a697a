//! Compact sizes: how long a form is, and the number that it holds.

ghost use Rattle.std.specs.Prelude.{◌≡◌, ◌≤◌, Some};
ghost use Rattle.std.specs.Option.{option_map};
ghost use Rattle.std.specs.Int.{w16, w32, w64};
ghost use Rattle.block_grammar.specs.Fields.{number_at, at_least, compact_size_at};
ghost use Rattle.wire_read.specs.SizeForm.{form_length};

fn u16_at(bytes: &[u8]) -> Option<(u16, &[u8])>
    ensures { option_map (λ x. (x.0, x.1.now)) result ≡ number_at w16 bytes.now }
{
    let (number, rest) = bytes.split_first_chunk()?;
    Some((u16::from_le_bytes(*number), rest))
}

fn u32_at(bytes: &[u8]) -> Option<(u32, &[u8])>
    ensures { option_map (λ x. (x.0, x.1.now)) result ≡ number_at w32 bytes.now }
{
    let (number, rest) = bytes.split_first_chunk()?;
    Some((u32::from_le_bytes(*number), rest))
}

fn u64_at(bytes: &[u8]) -> Option<(u64, &[u8])>
    ensures { option_map (λ x. (x.0, x.1.now)) result ≡ number_at w64 bytes.now }
{
    let (number, rest) = bytes.split_first_chunk()?;
    Some((u64::from_le_bytes(*number), rest))
}

/// The number that was read, unless a shorter form holds it.
fn shortest(least: u64, number: u64, rest: &[u8]) -> Option<(u64, &[u8])>
    ensures { option_map (λ x. (x.0, x.1.now)) result ≡ at_least least (Some (number, rest.now)) }
{
    if number < least {
        return None;
    }
    Some((number, rest))
}

/// A compact size, of the shortest form alone.
#[tactic(auto, unfolding(block_grammar::specs::Fields::compact_size_at))]
pub(crate) fn compact_size(bytes: &[u8]) -> Option<(u64, &[u8])>
    ensures { option_map (λ x. (x.0, x.1.now)) result ≡ compact_size_at bytes.now }
{
    let (first, rest) = bytes.split_first()?;
    match *first {
        0xFD => {
            let (number, rest) = u16_at(rest)?;
            shortest(0xFD, u64::from(number), rest)
        }
        0xFE => {
            let (number, rest) = u32_at(rest)?;
            shortest(0x1_0000, u64::from(number), rest)
        }
        0xFF => {
            let (number, rest) = u64_at(rest)?;
            shortest(0x1_0000_0000, number, rest)
        }
        number => Some((u64::from(number), rest)),
    }
}

/// How many bytes the form takes that begins here.
#[tactic(auto, unfolding(crate::specs::SizeForm::form_length))]
pub(crate) fn form_length(bytes: &[u8]) -> usize
    ensures value { result ≡ form_length bytes.now }
    ensures positive { 1 ≤ result }
{
    match bytes.first() {
        Some(0xFD) => 3,
        Some(0xFE) => 5,
        Some(0xFF) => 9,
        _ => 1,
    }
}
