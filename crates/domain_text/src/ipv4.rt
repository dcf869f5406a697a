//! The texts of IPv4 addresses.

ghost use Rattle.std.specs.Prelude.{◌≡◌, ◌<◌, List, ℕ, Some, MatchOption};
ghost use Rattle.std.specs.Option.{option_map};
ghost use Rattle.domain_text.specs.Reading.{after};
ghost use Rattle.domain_text.specs.Ipv4.{IsIpv4, ipv4_of, octet_at, dotted_at, digits_at as digits_at_of, below_256 as below_256_of};

/// The four bytes of the address that the text is, None exactly where it is none: four numbers up to 255 without
/// leading zeros, joined by dots.
#[tactic(auto, using(crate::proofs::Ipv4Laws::ipv4_found, crate::proofs::Ipv4Laws::ipv4_only))]
pub fn read_ipv4(text: &[u8]) -> Option<[u8; 4]>
    ensures cases { MatchOption result ((address : List ℕ) → ¬ (IsIpv4 text.now address)) (λ address. IsIpv4 text.now address) }
    ensures one { (address : List ℕ) → IsIpv4 text.now address → result ≡ Some address }
    ensures exact { result ≡ ipv4_of text.now }
{
    octets(text)
}

#[tactic(auto, unfolding(crate::specs::Ipv4::ipv4_of))]
fn octets(text: &[u8]) -> Option<[u8; 4]>
    ensures { result ≡ ipv4_of text.now }
{
    let (a, rest) = octet(text)?;
    let (b, rest) = dotted(rest)?;
    let (c, rest) = dotted(rest)?;
    let (d, rest) = dotted(rest)?;
    match rest.split_first() {
        None => Some([a, b, c, d]),
        Some(_) => None,
    }
}

fn dotted(bytes: &[u8]) -> Option<(u8, &[u8])>
    ensures { option_map (λ r. (r.0, r.1.now)) result ≡ dotted_at bytes.now }
{
    let rest = skip(b'.', bytes)?;
    octet(rest)
}

fn skip(byte: u8, bytes: &[u8]) -> Option<&[u8]>
    ensures { option_map (λ r. r.now) result ≡ after byte bytes.now }
{
    let (first, rest) = bytes.split_first()?;
    if *first == byte { Some(rest) } else { None }
}

fn octet(bytes: &[u8]) -> Option<(u8, &[u8])>
    ensures { option_map (λ r. (r.0, r.1.now)) result ≡ octet_at bytes.now }
{
    let (first, rest) = bytes.split_first()?;
    if !first.is_ascii_digit() {
        return None;
    }
    if *first == b'0' {
        return Some((0, rest));
    }
    digits_at(2, u16::from(*first - b'0'), rest)
}

fn digits_at(more: u8, number: u16, bytes: &[u8]) -> Option<(u8, &[u8])>
    requires more { more < 3 }
    requires two { more ≡ 2 → number < 10 }
    requires one { more ≡ 1 → number < 100 }
    requires last { more ≡ 0 → number < 1000 }
    ensures { option_map (λ r. (r.0, r.1.now)) result ≡ digits_at_of more number bytes.now }
{
    let Some((digit, rest)) = bytes.split_first() else {
        return below_256(number, bytes);
    };
    if more == 0 || !digit.is_ascii_digit() {
        return below_256(number, bytes);
    }
    digits_at(more - 1, number * 10 + u16::from(*digit - b'0'), rest)
}

fn below_256(number: u16, rest: &[u8]) -> Option<(u8, &[u8])>
    ensures { option_map (λ r. (r.0, r.1.now)) result ≡ below_256_of number rest.now }
{
    if number < 256 {
        Some((number as u8, rest))
    } else {
        None
    }
}
