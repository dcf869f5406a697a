//! The replies to commands and saves.

ghost use Rattle.std.specs.Prelude.{◌≡◌, ◌++◌};
ghost use Rattle.std.specs.Int.{w32, w64, to_le_bytes};
ghost use Rattle.chain_commands.specs.Reply.{no_memory_reply};
ghost use Rattle.chain_commands.specs.Connecting.{refusal_reply};
ghost use Rattle.chain_commands.specs.Disconnecting.{back_reply};
ghost use Rattle.chain_commands.specs.Saving.{save_refusal_reply};
ghost use Rattle.index_commands.specs.Views.{refusal_of, back_refusal_of};
ghost use Rattle.name_store.specs.Saves.{save_refusal_of};
ghost use Rattle.bridge_core.specs.Bridge.{fault_reply};
ghost use Rattle.bridge_core.specs.CommandReply.{command_reply};

use crate::codes;
use chain_state::{BackRefusal, Refusal};
use frame_loop::ReplyBuf;
use index_commands::CommandRefusal;
use name_store::SaveRefusal;
use nmc_base::Tip;

/// Code 0, and the height and hash of the tip that the event left.
pub(crate) fn accept(reply: &mut ReplyBuf, tip: &Tip)
    ensures { reply.new ≡ record { code = 0; payload = to_le_bytes w32 tip.now.height ++ tip.now.hash.0 } }
{
    reply.set(codes::DONE, &tip.height.to_le_bytes(), &tip.hash.0);
}

/// The code of a connect's refusal with its payload.
fn refuse_connect(reply: &mut ReplyBuf, refusal: &Refusal)
    ensures { reply.new ≡ refusal_reply (refusal_of refusal.now) }
{
    match refusal {
        Refusal::BadBlock { at } => reply.set(codes::BAD_BLOCK, &at.to_le_bytes(), &[]),
        Refusal::NotOnTip { tip } => reply.set(codes::NOT_ON_TIP, &tip.0, &[]),
        Refusal::HeightLimit => reply.set(codes::HEIGHT_LIMIT, &[], &[]),
        Refusal::MerkleMismatch { computed } => reply.set(codes::MERKLE_MISMATCH, &computed.0, &[]),
        Refusal::Rule { tx, refusal } => reply.set(refusal.number(), &tx.to_le_bytes(), &[]),
        Refusal::JournalFull => reply.set(codes::JOURNAL_FULL, &[], &[]),
    }
}

/// The code of a disconnect's refusal with its payload.
fn refuse_disconnect(reply: &mut ReplyBuf, refusal: &BackRefusal)
    ensures { reply.new ≡ back_reply (back_refusal_of refusal.now) }
{
    match refusal {
        BackRefusal::AtBase => reply.set(codes::AT_BASE, &[], &[]),
        BackRefusal::NotTip { tip } => reply.set(codes::NOT_TIP, &tip.0, &[]),
        BackRefusal::JournalFull => reply.set(codes::JOURNAL_FULL, &[], &[]),
    }
}

/// The code of a command's refusal with its payload.
pub(crate) fn refuse(reply: &mut ReplyBuf, refusal: &CommandRefusal)
    ensures { reply.new ≡ command_reply refusal.now }
{
    match refusal {
        CommandRefusal::Connect(refusal) => refuse_connect(reply, refusal),
        CommandRefusal::Disconnect(refusal) => refuse_disconnect(reply, refusal),
    }
}

/// Code 0, and how many saves were selected since the files were made.
pub(crate) fn tell_saved(reply: &mut ReplyBuf, number: u64)
    ensures { reply.new ≡ record { code = 0; payload = to_le_bytes w64 number } }
{
    reply.set(codes::DONE, &number.to_le_bytes(), &[]);
}

/// The code of a save's refusal.
pub fn refuse_save(reply: &mut ReplyBuf, refusal: SaveRefusal)
    ensures { reply.new ≡ save_refusal_reply (save_refusal_of refusal) }
{
    match refusal {
        SaveRefusal::CheckpointLimit => reply.set(codes::CHECKPOINT_LIMIT, &[], &[]),
        SaveRefusal::ImageLimit => reply.set(codes::IMAGE_LIMIT, &[], &[]),
    }
}

/// Code FE, want of memory.
pub fn lack_memory(reply: &mut ReplyBuf)
    ensures { reply.new ≡ no_memory_reply }
{
    reply.set(codes::NO_MEMORY, &[], &[]);
}

/// Code FD, a fault of the disk.
pub fn tell_fault(reply: &mut ReplyBuf)
    ensures { reply.new ≡ fault_reply }
{
    reply.set(codes::DISK_FAULT, &[], &[]);
}
