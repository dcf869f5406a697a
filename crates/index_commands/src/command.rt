//! A command on the chain, as a value, with the record that keeps it.

ghost use Rattle.std.specs.Prelude.{◌≡◌, IfSome, IsNone};
ghost use Rattle.chain_commands.specs.Event.{Command};
ghost use Rattle.chain_commands.specs.RunState.{record_length};
ghost use Rattle.index_commands.specs.Records.{record_of, head_of, body_of, HasSize};
ghost use Rattle.index_commands.specs.Views.{command_of, IsWithinLimits};

use nmc_base::{Hash32, LONGEST_BLOCK};

/// What changes the chain, where it is accepted.
#[derive(Clone, Copy, Debug)]
pub enum ChainCommand<'a> {
    /// The bytes of a block that is to join the chain, at most 8,388,608.
    Connect(&'a [u8]),
    /// The hash of the newest block, which is to leave the chain.
    Disconnect(Hash32),
}

/// The head of the record of a connect.
const CONNECT: u8 = 1;

/// The head of the record of a disconnect.
const DISCONNECT: u8 = 2;

/// The bytes of a record in the journal beside its head and its body.
const RECORD_FRAME: u64 = 5;

impl ChainCommand<'_> {
    /// The head of its record.
    pub(crate) fn head(&self) -> u8
        ensures { result ≡ head_of (command_of self.now) }
    {
        match self {
            ChainCommand::Connect(_) => CONNECT,
            ChainCommand::Disconnect(_) => DISCONNECT,
        }
    }

    /// The bytes behind that.
    pub(crate) fn body(&self) -> &[u8]
        requires { IsWithinLimits self.now }
        ensures body { result.now ≡ body_of (command_of self.now) }
        ensures sized { HasSize (command_of self.now) }
    {
        match self {
            ChainCommand::Connect(block) => block,
            ChainCommand::Disconnect(hash) => &hash.0,
        }
    }

    /// How many bytes its record takes in the journal.
    pub(crate) fn record_length(&self) -> u64
        requires { IsWithinLimits self.now }
        ensures length { result ≡ record_length (command_of self.now) }
        ensures sized { HasSize (command_of self.now) }
    {
        RECORD_FRAME + 1 + self.body().len() as u64
    }
}

/// The command whose record these bytes are.
pub(crate) fn read_command(bytes: &[u8]) -> Option<ChainCommand<'_>>
    ensures some { IfSome result (λ command. bytes.now ≡ record_of (command_of command)) }
    ensures within { IfSome result IsWithinLimits }
    ensures none { IsNone result → (command : Command) → HasSize command → bytes.now ≡ record_of command → ⊥ }
{
    let (head, body) = bytes.split_first()?;
    if *head == CONNECT && body.len() <= LONGEST_BLOCK {
        return Some(ChainCommand::Connect(body));
    }
    if *head == DISCONNECT {
        return Some(ChainCommand::Disconnect(Hash32(*body.as_array()?)));
    }
    None
}
