//! Labels of host texts.

ghost use Rattle.std.specs.Prelude.{◌≡◌, ◌<◌, ◌==◌, ◌∷◌, [], length, IfSome, IsTrue};
ghost use Rattle.std.specs.Option.{option_map_or};
ghost use Rattle.std.specs.List.{list_all, slice_split};
ghost use Rattle.std.specs.Str.{IsUtf8};
ghost use Rattle.domain_text.specs.Label.{is_label as is_label_of, is_label_byte as is_label_byte_of, has_capital as has_capital_of, is_entry_label as is_entry_label_of, is_star_or_empty as is_star_of};

use crate::limits::LONGEST_LABEL;

/// Whether the text is a label of a host text (IFA-0001): 1 to 63 letters, digits, `-` and `_`.
pub fn is_label(text: &[u8]) -> bool
    ensures { result ≡ is_label_of text.now }
{
    if text.is_empty() || text.len() > LONGEST_LABEL {
        return false;
    }
    has_label_bytes(text)
}

fn has_label_bytes(text: &[u8]) -> bool
    ensures { result ≡ list_all is_label_byte_of text.now }
{
    text.iter().all(|c| is_label_byte(*c))
}

fn is_label_byte(c: u8) -> bool
    ensures { result ≡ is_label_byte_of c }
{
    c.is_ascii_digit() || c.is_ascii_uppercase() || c.is_ascii_lowercase() || c == b'-' || c == b'_'
}

fn has_capital(text: &[u8]) -> bool
    ensures { result ≡ has_capital_of text.now }
{
    text.iter().any(|c| c.is_ascii_uppercase())
}

fn is_star_or_empty(text: &[u8]) -> bool
    ensures { result ≡ is_star_of text.now }
{
    match text.split_first() {
        Some((first, rest)) => rest.is_empty() && *first == b'*',
        None => true,
    }
}

/// Whether the text may name an entry of a map (IFA-0001): `*`, the empty text, or a label without capital
/// letters. Such a text is ASCII.
#[tactic(auto, using(crate::proofs::Labels::entry_label_utf8))]
pub fn is_entry_label(text: &[u8]) -> bool
    ensures value { result ≡ is_entry_label_of text.now }
    ensures utf8 { IsTrue result → IsUtf8 text.now }
{
    let answer = entry_label(text);
    answer
}

fn entry_label(text: &[u8]) -> bool
    ensures { result ≡ is_entry_label_of text.now }
{
    if is_star_or_empty(text) {
        return true;
    }
    if !is_label(text) {
        return false;
    }
    !has_capital(text)
}

/// What stands before the first such byte, and what stands behind it if there is one.
pub(crate) fn cut(text: &[u8], at: u8) -> (&[u8], Option<&[u8]>)
    ensures split { slice_split (λ b. b == at) text.now ≡ result.0.now ∷ option_map_or (λ rest. slice_split (λ b. b == at) rest.now) result.1 [] }
    ensures shorter { IfSome result.1 (λ rest. length rest.now < length text.now) }
{
    for (i, byte) in text.iter().enumerate() {
        if *byte == at {
            return (&text[..i], Some(&text[i + 1..]));
        }
    }
    (text, None)
}
