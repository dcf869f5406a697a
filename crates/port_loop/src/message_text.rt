//! A message behind its length, as a stream has it.

ghost use Rattle.std.specs.Prelude.{◌≡◌, ◌≤◌, length, IfOk, []};
ghost use Rattle.dns_tcp.specs.Messages.{message_text};
ghost use Rattle.frame_loop.specs.declared.reply.TheConstants.{LONGEST_REPLY};

use frame_loop::LONGEST_REPLY;
use nmc_base::NoMemory;
use std::alloc::Global;
use std::marker::Model;

/// The bytes of a length.
const HEAD: usize = 2;

/// A message behind its length, as a stream has it.
#[derive(Drop)]
pub(crate) struct MessageText {
    bytes: Vec<u8>,
}

impl Model for MessageText {
    ghost use Rattle.std.specs.Prelude.{◌≤◌, ◌+◌, List, ℕ, vec_capacity};
    ghost use Rattle.frame_loop.specs.declared.reply.TheConstants.{LONGEST_REPLY};

    ghost Value = { List ℕ };

    ghost view = { λ t. t.bytes.items };

    ghost invariant = { λ t. 2 + LONGEST_REPLY ≤ vec_capacity t.bytes };
}

impl MessageText {
    /// Room for the longest reply behind its length: 65,537 bytes.
    pub(crate) fn new(alloc: Global) -> Result<MessageText, NoMemory>
        ensures { IfOk result (λ text. text ≡ []) }
    {
        Ok(MessageText {
            bytes: Vec::with_capacity(alloc, HEAD + LONGEST_REPLY)?,
        })
    }

    /// Puts a message in place of the one before.
    pub(crate) fn set(&mut self, message: &[u8])
        requires { length message.now ≤ LONGEST_REPLY }
        ensures { self.new ≡ message_text message.now }
    {
        let length = message.len() as u16;
        self.bytes.clear();
        let _ = self.bytes.extend_from_slice(&length.to_be_bytes());
        let _ = self.bytes.extend_from_slice(message);
    }

    /// The length and the message.
    pub(crate) fn bytes(&self) -> &[u8]
        ensures { result.now ≡ self.now }
    {
        &self.bytes
    }
}
