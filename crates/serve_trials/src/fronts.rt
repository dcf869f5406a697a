//! Each front of the first block, in a frame of its own: its length is the place of the fault.

ghost use Rattle.std.specs.Prelude.{◌≤◌};

use crate::first_block::FIRST_BLOCK;
use crate::outside::{Outside, Trial, each_is_right};
use crate::stops::make;
use crate::tables::{add_words, replay_of};
use bridge_core::Status;
use nmc_base::NoMemory;
use std::alloc::{AllocError, Global};
use std::test::Fail;

/// Adds the frame of the first bytes of the block.
fn add_front(frames: &mut Vec<u8>, count: u32) -> Result<(), AllocError>
    requires { count ≤ 285 }
{
    frames.extend_from_slice(&[1])?;
    frames.extend_from_slice(&count.to_le_bytes())?;
    frames.extend_from_slice(&FIRST_BLOCK[..count as usize])
}

/// Each front that lacks a byte or more, and then the block.
fn fronts(alloc: Global) -> Result<Vec<u8>, AllocError> {
    let mut frames = Vec::new(alloc);
    for count in 0..286u32 {
        add_front(&mut frames, count)?;
    }
    Ok(frames)
}

/// Adds code 1 and the place.
fn add_reply(replies: &mut Vec<u8>, count: u32) -> Result<(), AllocError> {
    replies.extend_from_slice(&[1, 4, 0, 0, 0])?;
    replies.extend_from_slice(&count.to_le_bytes())
}

/// The reply to each front, and the acceptance of the block.
fn replies(alloc: Global) -> Result<Vec<u8>, AllocError> {
    let mut replies = Vec::new(alloc);
    for count in 0..285u32 {
        add_reply(&mut replies, count)?;
    }
    add_words(&mut replies, "accepted")?;
    Ok(replies)
}

fn replay_fronts(alloc: Global, outside: &mut Outside) -> Result<Status, NoMemory> {
    let frames = fronts(alloc)?;
    replay_of(alloc, outside, &frames)
}

fn are_replies(alloc: Global, bytes: &[u8]) -> Result<bool, AllocError> {
    let wanted = replies(alloc)?;
    Ok(bytes == wanted.as_slice())
}

struct EachFront;

impl Trial for EachFront {
    fn is_right(alloc: Global, outside: &mut Outside, _row: &str) -> Result<bool, NoMemory> {
        let is_made = make(alloc, outside, 0)? == Status::Done;
        let is_done = replay_fronts(alloc, outside)? == Status::Done;
        Ok(is_made && is_done && are_replies(alloc, outside.sink.bytes())?)
    }
}

#[test]
fn each_front_of_a_block_is_cut_at_its_length(rt: HostRuntime) -> Result<(), Fail> {
    each_is_right::<EachFront>(&rt, rt.alloc(), "each front")?;
    Ok(())
}
