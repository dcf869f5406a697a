//! Reads the pushes of a script, and what ends them.

ghost use Rattle.std.specs.Prelude.{◌≡◌};
ghost use Rattle.std.specs.Option.{option_map};
ghost use Rattle.std.specs.Int.{w8, w16, w32};
ghost use Rattle.block_grammar.specs.Fields.{number_at};
ghost use Rattle.name_script.specs.Reading.{push_at, begins_with_drop};

/// The opcodes up to this one, OP_0 among them, push as many bytes as they say.
const LAST_DIRECT: u8 = 0x4B;

const OP_PUSHDATA1: u8 = 0x4C;

const OP_PUSHDATA2: u8 = 0x4D;

const OP_PUSHDATA4: u8 = 0x4E;

const OP_NOP: u8 = 0x61;

const OP_2DROP: u8 = 0x6D;

const OP_DROP: u8 = 0x75;

fn u8_at(bytes: &[u8]) -> Option<(u8, &[u8])>
    ensures { option_map (λ x. (x.0, x.1.now)) result ≡ number_at w8 bytes.now }
{
    let (number, rest) = bytes.split_first_chunk()?;
    Some((u8::from_le_bytes(*number), rest))
}

fn u16_at(bytes: &[u8]) -> Option<(u16, &[u8])>
    ensures { option_map (λ x. (x.0, x.1.now)) result ≡ number_at w16 bytes.now }
{
    let (number, rest) = bytes.split_first_chunk()?;
    Some((u16::from_le_bytes(*number), rest))
}

fn u32_at(bytes: &[u8]) -> Option<(u32, &[u8])>
    ensures { option_map (λ x. (x.0, x.1.now)) result ≡ number_at w32 bytes.now }
{
    let (number, rest) = bytes.split_first_chunk()?;
    Some((u32::from_le_bytes(*number), rest))
}

/// What the push at the front pushes, and the bytes after it.
#[tactic(auto, unfolding(crate::specs::Reading::push_at))]
pub(crate) fn push_of(script: &[u8]) -> Option<(&[u8], &[u8])>
    ensures { option_map (λ x. (x.0.now, x.1.now)) result ≡ push_at script.now }
{
    let (opcode, rest) = script.split_first()?;
    let (len, rest) = match *opcode {
        0..=LAST_DIRECT => (usize::from(*opcode), rest),
        OP_PUSHDATA1 => {
            let (len, rest) = u8_at(rest)?;
            (usize::from(len), rest)
        }
        OP_PUSHDATA2 => {
            let (len, rest) = u16_at(rest)?;
            (usize::from(len), rest)
        }
        OP_PUSHDATA4 => {
            let (len, rest) = u32_at(rest)?;
            (len as usize, rest)
        }
        _ => return None,
    };
    rest.split_at_checked(len)
}

/// Whether an opcode stands at the front that ends the pushes.
pub(crate) fn ends_pushes(script: &[u8]) -> bool
    ensures { result ≡ begins_with_drop script.now }
{
    match script.first() {
        Some(opcode) => matches!(*opcode, OP_DROP | OP_2DROP | OP_NOP),
        None => false,
    }
}
