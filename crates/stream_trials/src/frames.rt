//! A stream gives the same frames in any pieces, and a bad one is told by its place.

ghost use Rattle.std.specs.Prelude.{◌≤◌, ◌+◌, length};

use crate::comparing::same;
use feed_frames::{BadFrame, Frames};
use nmc_base::NoMemory;
use std::alloc::Global;
use std::process::Abort;
use std::test::Fail;

/// A connect of three bytes, a disconnect, and a connect of five bytes of which one is there.
static STREAM: [u8; 51] = [
    1, 3, 0, 0, 0, 7, 8, 9, 2, 32, 0, 0, 0, 1, 2, 3, 4, 5, 6, 7, 8, 9, 10, 11, 12, 13, 14, 15, 16,
    17, 18, 19, 20, 21, 22, 23, 24, 25, 26, 27, 28, 29, 30, 31, 32, 1, 5, 0, 0, 0, 6,
];

/// What the next frame is: its kind and its payload, or `.` at a part of one, or `!` and the place of a bad one.
fn tell(frames: &mut Frames, out: &mut Vec<u8>) -> Result<(), NoMemory> {
    match frames.next() {
        Ok(Some(frame)) => {
            out.extend_from_slice(&[frame.kind])?;
            out.extend_from_slice(frame.payload)?;
        }
        Ok(None) => out.extend_from_slice(b".")?,
        Err(BadFrame { offset }) => out.extend_from_slice(&[b'!', offset.min(255) as u8])?,
    }
    Ok(())
}

/// The kinds that are read here.
const LAST_KIND: u8 = 4;

/// Three answers to these two pieces.
fn three(alloc: Global, front: &[u8], rest: &[u8]) -> Result<Vec<u8>, NoMemory>
    requires { length front.now + length rest.now ≤ 1000 }
{
    let mut out = Vec::new(alloc);
    let mut frames = Frames::new(alloc, LAST_KIND)?;
    frames.feed(front);
    frames.feed(rest);
    tell(&mut frames, &mut out)?;
    tell(&mut frames, &mut out)?;
    tell(&mut frames, &mut out)?;
    Ok(out)
}

/// The stream in two pieces, of which the first has so many bytes.
fn tells_alike(rt: &impl Abort, alloc: Global, at: usize) -> Result<(), Fail> {
    let (front, rest) = STREAM.split_at(at.min(51));
    let out = three(alloc, front, rest)?;
    same(rt, &out[..out.len().min(4)], &[1, 7, 8, 9]);
    same(rt, &out[out.len().min(4)..out.len().min(5)], &[2]);
    same(
        rt,
        &out[out.len().min(5)..out.len().min(37)],
        &STREAM[13..45],
    );
    same(rt, &out[out.len().min(37)..], b".");
    Ok(())
}

#[test]
fn gives_the_frames_of_any_pieces(rt: HostRuntime) -> Result<(), Fail> {
    for at in [0, 1, 7, 8, 30, 46, 51] {
        tells_alike(&rt, rt.alloc(), at)?;
    }
    Ok(())
}

/// Three answers to these bytes alone.
fn tells(rt: &impl Abort, alloc: Global, bytes: &[u8], want: &[u8]) -> Result<(), Fail>
    requires { length bytes.now ≤ 100 }
{
    let out = three(alloc, bytes, &[])?;
    same(rt, &out, want);
    Ok(())
}

#[test]
fn a_bad_frame_is_answered_again(rt: HostRuntime) -> Result<(), Fail> {
    let alloc = rt.alloc();
    tells(&rt, alloc, &[5], &[b'!', 0, b'!', 0, b'!', 0])?;
    tells(&rt, alloc, &[4, 1, 0, 0, 0], &[b'!', 0, b'!', 0, b'!', 0])?;
    tells(&rt, alloc, &[3, 0, 0, 1, 0], &[b'!', 0, b'!', 0, b'!', 0])?;
    tells(
        &rt,
        alloc,
        &[1, 1, 0, 0x80, 0],
        &[b'!', 0, b'!', 0, b'!', 0],
    )?;
    tells(&rt, alloc, &[2, 33, 0, 0, 0], &[b'!', 0, b'!', 0, b'!', 0])?;
    tells(&rt, alloc, &[1, 0, 0, 0, 0, 5], &[1, b'!', 5, b'!', 5])
}

#[test]
fn a_part_of_a_frame_is_none(rt: HostRuntime) -> Result<(), Fail> {
    let alloc = rt.alloc();
    tells(&rt, alloc, &[], b"...")?;
    tells(&rt, alloc, &[1, 0xff, 0xff, 0xff], b"...")?;
    tells(&rt, alloc, &[2, 33], b"...")?;
    tells(&rt, alloc, &[1, 0, 0, 0x80, 0], b"...")?;
    tells(&rt, alloc, &[3, 255, 255, 0, 0], b"...")?;
    tells(&rt, alloc, &[4], b"...")?;
    tells(&rt, alloc, &[4, 0, 0, 0], b"...")?;
    tells(&rt, alloc, &[4, 0, 0, 0, 0], &[4, b'.', b'.'])?;
    tells(&rt, alloc, &[1, 0, 0, 0, 0], &[1, b'.', b'.'])
}

#[test]
fn reads_the_kinds_up_to_a_number(rt: HostRuntime) -> Result<(), Fail> {
    let mut frames = Frames::new(rt.alloc(), 3)?;
    frames.feed(&[4, 0, 0, 0, 0]);
    let is_bad = matches!(frames.next(), Err(BadFrame { offset: 0 }));
    assert!(rt; is_bad);
    frames.restart(LAST_KIND);
    frames.feed(&[4, 0, 0, 0, 0]);
    let is_whole = matches!(frames.next(), Ok(Some(_)));
    assert!(rt; is_whole);
    Ok(())
}

#[test]
fn tells_the_room_and_the_cut_frame(rt: HostRuntime) -> Result<(), Fail> {
    let mut frames = Frames::new(rt.alloc(), LAST_KIND)?;
    assert!(rt; frames.room() == 8_454_149 && frames.cut_at().is_none());
    frames.feed(&[1, 0, 0, 0, 0, 2]);
    let is_whole = matches!(frames.next(), Ok(Some(_)));
    assert!(rt; is_whole && frames.cut_at() == Some(5) && frames.room() == 8_454_148);
    frames.reset();
    assert!(rt; frames.room() == 8_454_149 && frames.cut_at().is_none());
    Ok(())
}
