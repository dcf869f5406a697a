//! The texts of IPv6 addresses.

ghost use Rattle.std.specs.Prelude.{◌≡◌, ◌∷◌, List, ℕ, Some, MatchOption, length, ◌≤◌, ◌<◌, None, true, []};
ghost use Rattle.std.specs.Option.{option_map, option_and_then};
ghost use Rattle.std.specs.List.{list_all};
ghost use Rattle.std.specs.Char.{is_digit, digit_value as digit_value_of};
ghost use Rattle.domain_text.specs.Ipv6.{IsIpv6, ipv6_of, address_bytes, hex_value as hex_value_of, group_of, groups_of, gap_of, by_gap, if_few};

use crate::groups::Groups;
use crate::label::cut;

/// The most hexadecimal digits of a group.
const LONGEST_GROUP: usize = 4;

/// The sixteen bytes of the address that the text is, None exactly where it is none: eight groups of 1 to 4
/// hexadecimal digits joined by colons, or fewer and one `::` (RFC 4291, 2.2, forms 1 and 2).
pub fn read_ipv6(text: &[u8]) -> Option<[u8; 16]>
    ensures cases { MatchOption result ((address : List ℕ) → ¬ (IsIpv6 text.now address)) (λ address. IsIpv6 text.now address) }
    ensures one { (address : List ℕ) → IsIpv6 text.now address → result ≡ Some address }
    ensures exact { result ≡ ipv6_of text.now }
{
    address(text)
}

#[tactic(auto, unfolding(crate::specs::Ipv6::ipv6_of))]
fn address(text: &[u8]) -> Option<[u8; 16]>
    ensures { result ≡ ipv6_of text.now }
{
    let groups = all_groups(text)?;
    Some(bytes_of(groups))
}

fn bytes_of(groups: [u16; 8]) -> [u8; 16]
    ensures { result ≡ address_bytes groups }
{
    let mut bytes = [0; 16];
    for (i, group) in groups.iter().enumerate() {
        bytes[2 * i..2 * i + 2].copy_from_slice(&group.to_be_bytes());
    }
    bytes
}

/// The eight groups that the text gives.
fn all_groups(text: &[u8]) -> Option<[u16; 8]>
    ensures { result ≡ by_gap text.now (gap_of text.now) }
{
    match gap(text) {
        None => eight_groups(text),
        Some((before, behind)) => around_gap(before, behind),
    }
}

fn eight_groups(text: &[u8]) -> Option<[u16; 8]>
    ensures { result ≡ by_gap text.now None }
{
    let groups = groups(text)?;
    groups.if_eight()
}

fn around_gap(before: &[u8], behind: &[u8]) -> Option<[u16; 8]>
    ensures { result ≡ by_gap [] (Some (before.now, behind.now)) }
{
    let left = groups(before)?;
    let right = groups(behind)?;
    left.with_gap(&right)
}

/// What stands before and behind the first `::`.
fn gap(text: &[u8]) -> Option<(&[u8], &[u8])>
    ensures { option_map (λ p. (p.0.now, p.1.now)) result ≡ gap_of text.now }
{
    let mut at = 0;
    while text.len() - at >= 2 {
        if text[at] == b':' && text[at + 1] == b':' {
            return Some((&text[..at], &text[at + 2..]));
        }
        at += 1;
    }
    None
}

/// The groups that the text joins, where they are at most eight.
fn groups(text: &[u8]) -> Option<Groups>
    ensures { result ≡ option_and_then if_few (groups_of text.now) }
{
    let mut found = Groups::empty();
    let mut rest = if text.is_empty() { None } else { Some(text) };
    loop {
        match rest {
            None => return Some(found),
            Some(part) => {
                let (first, more) = cut(part, b':');
                let value = group(first)?;
                found = found.push(value)?;
                rest = more;
            }
        }
    }
}

/// The value of 1 to 4 hexadecimal digits.
fn group(text: &[u8]) -> Option<u16>
    ensures { result ≡ group_of text.now }
{
    if text.is_empty() || text.len() > LONGEST_GROUP {
        return None;
    }
    if !are_digits(text) {
        return None;
    }
    Some(hex_value(text))
}

fn are_digits(text: &[u8]) -> bool
    ensures { result ≡ list_all (λ c. is_digit c 16) text.now }
{
    text.iter().all(|c| c.is_ascii_hexdigit())
}

/// The value of digits that are at most four.
fn hex_value(text: &[u8]) -> u16
    requires few { length text.now ≤ 4 }
    requires digits { list_all (λ c. is_digit c 16) text.now ≡ true }
    ensures { result ≡ hex_value_of text.now }
{
    let mut value: u16 = 0;
    for digit in text {
        value = value * 16 + digit_value(*digit);
    }
    value
}

fn digit_value(digit: u8) -> u16
    requires { is_digit digit 16 ≡ true }
    ensures value { result ≡ digit_value_of digit }
    ensures small { result < 16 }
{
    match digit {
        b'0'..=b'9' => u16::from(digit - b'0'),
        b'a'..=b'f' => u16::from(digit - b'a') + 10,
        _ => u16::from(digit - b'A') + 10,
    }
}
