//! What a self-test came to, and its text.

ghost use Rattle.std.specs.Prelude.{◌≡◌, ◌++◌, decimal, IfOk, OnOk};
ghost use Rattle.nmc_base.specs.Hash.{display_text};
ghost use Rattle.bridge_commands.specs.SelfTest.{Writes, summary_text};

use byte_io::Sink;
use frame_loop::deliver;
use itoa::Buffer;
use name_report::ReportFault;
use nmc_base::{Bytes, Hash32, NoMemory};
use std::alloc::Global;

/// What a self-test came to.
#[derive(Clone, Copy)]
pub(crate) struct Summary {
    /// How many blocks were connected.
    pub(crate) blocks: u32,
    /// The hash of the newest of them.
    pub(crate) tip: Hash32,
    /// How many names have an entry.
    pub(crate) names: usize,
    /// How many of these are served.
    pub(crate) served: usize,
    /// How many replies to messages have RCODE 0 and an answer.
    pub(crate) answers: u32,
    /// How many messages were answered by an answer that was kept.
    pub(crate) hits: u64,
    /// How many answers weren't kept for want of memory.
    pub(crate) missed: u64,
    /// How many saves were made.
    pub(crate) saves: u32,
}

/// Appends a word, and behind it a number.
fn put_number(text: &mut Bytes, word: &[u8], number: u64) -> Result<(), NoMemory>
    ensures { OnOk result (text.new ≡ text.old ++ word.now ++ decimal number) }
{
    text.extend(word)?;
    text.extend(Buffer::new().format(number).as_bytes())
}

/// Appends a word, and behind it a hash in the order in which people write it.
fn put_hash(text: &mut Bytes, word: &[u8], hash: Hash32) -> Result<(), NoMemory>
    ensures { OnOk result (text.new ≡ text.old ++ word.now ++ display_text hash.0) }
{
    let mut shown = hash.0;
    shown.reverse();
    let mut digits = [0; 64];
    match hex::encode_to_slice(shown, &mut digits) {
        Ok(()) => {}
        Err(_) => unreachable!(),
    }
    text.extend(word)?;
    text.extend(&digits)
}

/// The lines of a summary.
fn text_of(alloc: Global, summary: &Summary) -> Result<Bytes, NoMemory>
    ensures { IfOk result (λ text. text ≡ summary_text summary.now) }
{
    let mut text = Bytes::copy_of(alloc, b"")?;
    put_number(&mut text, b"blocks ", u64::from(summary.blocks))?;
    put_hash(&mut text, b"\ntip ", summary.tip)?;
    put_number(&mut text, b"\nnames ", summary.names as u64)?;
    put_number(&mut text, b"\nserved ", summary.served as u64)?;
    put_number(&mut text, b"\nanswers ", u64::from(summary.answers))?;
    put_number(&mut text, b"\nhits ", summary.hits)?;
    put_number(&mut text, b"\nmissed ", summary.missed)?;
    put_number(&mut text, b"\nsaves ", u64::from(summary.saves))?;
    text.extend(b"\n")?;
    Ok(text)
}

/// Gives the lines of a summary to the sink. All the memory that they take is taken before the first write.
pub(crate) fn write_summary<K: Sink>(
    alloc: Global,
    summary: &Summary,
    sink: &mut K,
) -> Result<(), ReportFault>
    ensures { Writes (summary_text summary.now) (K.seen sink.old) (K.seen sink.new) result }
{
    let text = match text_of(alloc, summary) {
        Ok(text) => text,
        Err(NoMemory) => return Err(ReportFault::NoMemory),
    };
    match deliver(sink, text.as_slice()) {
        Ok(()) => Ok(()),
        Err(_) => Err(ReportFault::SinkFault),
    }
}
