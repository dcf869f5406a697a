//! The outputs with a name script.

ghost use Rattle.std.specs.Prelude.{◌≡◌, ◌≤◌, ◌^◌, length};
ghost use Rattle.chain_names.specs.Verdict.{name_outputs};
ghost use Rattle.name_rules.specs.Found.{shortened};
ghost use Rattle.name_rules.specs.Seen.{found_outputs};

use crate::found::Found;
use name_script::{NameOp, read_name};
use tx_reader::Outputs;

/// A name output: its place, its amount, and what its script does.
#[derive(Clone, Copy, Debug)]
pub(crate) struct Made<'a> {
    pub place: u32,
    pub amount: u64,
    pub operation: NameOp<'a>,
}

/// The outputs with a name script: the first, and whether there are more.
pub(crate) fn name_outputs<'a>(outputs: Outputs<'a>) -> Found<Made<'a>>
    requires { length outputs ≤ 2 ^ 32 }
    ensures { found_outputs result ≡ shortened (name_outputs 0 outputs.entry) }
{
    let mut found = Found::Nothing;
    let mut place = 0u64;
    for output in outputs {
        if let Some(operation) = read_name(output.script) {
            found = found.and(Made {
                place: place as u32,
                amount: output.value,
                operation,
            });
        }
        place += 1;
    }
    found
}
