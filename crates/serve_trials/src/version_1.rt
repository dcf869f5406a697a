//! Files whose selected area has a text of version 1: they are opened, their newest block leaves by its record, and a save has the text
//! of version 2; each stop of that save, and each of its calls failing.

ghost use Rattle.std.specs.Prelude.{◌<◌};

use crate::courses::{EachCall, EachStop};
use crate::outside::{Outside, Trial, each_is_right, is_right_by, is_told_by};
use crate::registered_again::height_of;
use crate::stops::has;
use crate::tables::text;
use crate::texts::{add_word, bytes_of, field, number_or};
use disk_model::{Disk, Failed};
use memory_disk::MemoryDisk;
use nmc_base::NoMemory;
use rows::TEXT;
use std::alloc::{AllocError, Global};
use std::test::Fail;

mod rows;

// ---- files

/// The header of the base, and the selection of file 2.
static SELECTED_ONCE: &str =
    "014e4d43494458310a0100000000 zeros 0b6e732e6578616d706c652e 010100000002 00";

/// And that of file 1 behind it.
static SELECTED_TWICE: &str =
    "014e4d43494458310a0100000000 zeros 0b6e732e6578616d706c652e 010100000002 010100000001 00";

/// Adds what a word of the text stands for in this version.
fn add_part(bytes: &mut Vec<u8>, word: &str, version: u8) -> Result<(), AllocError> {
    if word == "version" {
        return bytes.extend_from_slice(&[version]);
    }
    match word.split_once(':') {
        Some((_, digits)) if version == 2 => add_word(bytes, digits),
        Some(_) => Ok(()),
        None => add_word(bytes, word),
    }
}

fn add_line(bytes: &mut Vec<u8>, line: &str, version: u8) -> Result<(), AllocError> {
    for word in line.split(' ') {
        add_part(bytes, word, version)?;
    }
    Ok(())
}

/// The text of the image in this version.
fn image_of(alloc: Global, version: u8) -> Result<Vec<u8>, AllocError> {
    let mut bytes = Vec::new(alloc);
    for line in text(TEXT).lines() {
        add_line(&mut bytes, line, version)?;
    }
    Ok(bytes)
}

/// An area with its length and that text, and no command.
fn area_of(alloc: Global, version: u8) -> Result<Vec<u8>, AllocError> {
    let image = image_of(alloc, version)?;
    let mut area = Vec::new(alloc);
    area.extend_from_slice(&(image.len() as u64).to_le_bytes())?;
    area.extend_from_slice(&image)?;
    area.push(0)?;
    Ok(area)
}

fn write(disk: &mut MemoryDisk, file: u8, bytes: &[u8]) -> Result<(), Failed>
    requires { file < 3 }
{
    disk.write_at(file, 0, bytes)?;
    disk.sync(file)
}

fn write_all(disk: &mut MemoryDisk, header: &[u8], area: &[u8]) -> Result<(), Failed> {
    write(disk, 0, header)?;
    write(disk, 1, &[0; 9])?;
    write(disk, 2, area)
}

/// Files behind one save, which wrote version 1, on a disk of which this call fails. Whether they were written.
pub(crate) fn make_old(alloc: Global, outside: &mut Outside, fail: u64) -> Result<bool, NoMemory> {
    let header = bytes_of(alloc, SELECTED_ONCE)?;
    let area = area_of(alloc, 1)?;
    outside.disk = MemoryDisk::new(alloc, &[fail])?;
    Ok(write_all(&mut outside.disk, &header, &area).is_ok())
}

// ---- replies

/// Replays over such files: the input, what it is answered with, and the height of the tip then. Block 50 leaves, behind a save too.
static REPLAYS: &str = "\
0220000000eeebbd8a29b5dfe50f6894e6ba4b9da5b338822121d17aae6dc355d7d31ee769 | 002400000031000000b3f8932b2460330ff8a6e25c7373e5307a3117b96a26a2acae038c4eb7f55765 | 49
save | saved 0200000000000000 | 50
 |  | 50
save 0220000000eeebbd8a29b5dfe50f6894e6ba4b9da5b338822121d17aae6dc355d7d31ee769 | saved 0200000000000000 002400000031000000b3f8932b2460330ff8a6e25c7373e5307a3117b96a26a2acae038c4eb7f55765 | 49
";

struct Replayed;

impl Trial for Replayed {
    fn is_right(alloc: Global, outside: &mut Outside, row: &str) -> Result<bool, NoMemory> {
        let is_made = make_old(alloc, outside, 0)?;
        let is_told = is_told_by(alloc, outside, "replay", field(row, 0), field(row, 1))?;
        let height = number_or(field(row, 2), 0) as usize;
        Ok(is_made && is_told && height_of(alloc, outside)? == Some(height))
    }
}

#[test]
fn a_text_of_version_1_has_the_index_of_its_chain(rt: HostRuntime) -> Result<(), Fail> {
    each_is_right::<Replayed>(&rt, rt.alloc(), REPLAYS)?;
    Ok(())
}

/// Whether a file has the area of this version, and no more.
fn has_area(alloc: Global, disk: &mut MemoryDisk, file: u8, version: u8) -> Result<bool, AllocError>
    requires { file < 3 }
{
    let area = area_of(alloc, version)?;
    Ok(has(disk, file, &area))
}

fn are_saved(alloc: Global, disk: &mut MemoryDisk) -> Result<bool, AllocError> {
    let header = bytes_of(alloc, SELECTED_TWICE)?;
    Ok(has(disk, 0, &header) && has_area(alloc, disk, 1, 2)? && has_area(alloc, disk, 2, 1)?)
}

struct Saved;

impl Trial for Saved {
    fn is_right(alloc: Global, outside: &mut Outside, row: &str) -> Result<bool, NoMemory> {
        let is_made = make_old(alloc, outside, 0)?;
        let is_told = is_told_by(alloc, outside, "replay", field(row, 0), field(row, 1))?;
        Ok(is_made && is_told && are_saved(alloc, &mut outside.disk)?)
    }
}

#[test]
fn a_save_over_version_1_has_the_text_of_version_2(rt: HostRuntime) -> Result<(), Fail> {
    each_is_right::<Saved>(&rt, rt.alloc(), "save | saved 0200000000000000")?;
    Ok(())
}

// ---- stops and failing calls

/// A save of them. The first block of another chain doesn't follow the tip, which is block 50.
static SAVE: &str = "\
replay | version 1 | 20
save | saved 0200000000000000 | 10 | 0220000000eeebbd8a29b5dfe50f6894e6ba4b9da5b338822121d17aae6dc355d7d31ee769 saved 0200000000000000 | 50
 |  |  | 0220000000eeebbd8a29b5dfe50f6894e6ba4b9da5b338822121d17aae6dc355d7d31ee769 saved 0300000000000000 | 50";

#[test]
fn the_index_is_the_same_wherever_a_save_over_version_1_stops(rt: HostRuntime) -> Result<(), Fail> {
    is_right_by::<EachStop>(&rt, rt.alloc(), SAVE)?;
    Ok(())
}

#[test]
fn tells_the_call_of_a_save_over_version_1_that_fails(rt: HostRuntime) -> Result<(), Fail> {
    is_right_by::<EachCall>(&rt, rt.alloc(), SAVE)?;
    Ok(())
}
