//! The text of an image, given out in pieces.

ghost use Rattle.std.specs.Prelude.{◌≡◌, ℕ, ◌+◌, ◌-◌, ◌++◌, ◌≤◌, drop, length, min, take, IfOk};
ghost use Rattle.name_tables.specs.Parts.{newest_first, tables_of};
ghost use Rattle.name_tables.specs.Tables.{maps_by, AreFilled};
ghost use Rattle.chain_names.specs.Sound.{IsSound};
ghost use Rattle.undo_records.specs.declared.version.Version.TheVariants.{Two};
ghost use Rattle.image_grammar.specs.Text.{IsStateText};
ghost use Rattle.image_writer.specs.Pieces.{Gives};
ghost use Rattle.image_writer.specs.Whole.{IsReadAgain};

use crate::copy::copy_into;
use crate::listed::Listed;
use crate::order::list_parts;
use crate::page::Page;
use crate::stage::Stage;
use crate::values::{put_count, put_head};
use crate::widths::read_widths;
use name_tables::Parts;
use nmc_base::{Base, NoMemory};
use std::alloc::Global;
use std::marker::Model;

/// The text of an image that is still to be given out. Contracts see the bytes.
///
/// It borrows the base and the parts of the index.
#[derive(Drop)]
pub struct ImageText<'a> {
    listed: Listed<'a>,
    /// What comes behind the page.
    stage: Stage<'a>,
    page: Page,
    /// How many bytes of the page were given out.
    given: usize,
}

impl<'a> Model for ImageText<'a> {
    ghost use Rattle.std.specs.Prelude.{List, ℕ, ◌≤◌, ◌++◌, drop, length};
    ghost use Rattle.image_writer.specs.Left.{left, AreWithin};
    ghost use Rattle.image_writer.specs.Listed.{AreShort};

    ghost Value = { List ℕ };

    ghost view = { λ t. drop t.given t.page ++ left t.listed t.stage };

    ghost invariant = { λ t. (t.given ≤ length t.page) × AreShort t.listed × AreWithin t.stage };
}

impl<'a> ImageText<'a> {
    /// Puts the next bytes into the buffer, from a place on, and answers how many.
    fn give(&mut self, buf: &mut [u8], at: usize) -> usize
        requires { at ≤ length buf.old }
        ensures { Gives self.old self.new buf.old buf.new at result }
    {
        if self.given == self.page.as_slice().len() {
            self.page.clear();
            self.given = 0;
            self.stage = self.stage.step(&self.listed, &mut self.page);
        }
        let count = copy_into(&self.page.as_slice()[self.given..], buf, at);
        self.given += count;
        count
    }

    /// Puts the next bytes of the text into the buffer, and answers how many. It fills the buffer, or gives all that is left.
    pub fn next(&mut self, buf: &mut [u8]) -> usize
        ensures count { result ≡ min (length buf.old) (length self.old) }
        ensures bytes { take result buf.new ≡ take result self.old }
        // Behind them the buffer stays as it was.
        ensures behind { drop result buf.new ≡ drop result buf.old }
        ensures left { self.new ≡ drop result self.old }
    {
        let mut filled = 0;
        while filled < buf.len() {
            let count = self.give(buf, filled);
            if count == 0 {
                return filled;
            }
            filled += count;
        }
        filled
    }
}

/// The text of the image of an index, in version 2: its base, and its parts.
///
/// It takes all its memory here: the order of coins, 8 bytes for each, and of names, 12 for each. Giving the text out takes none.
pub fn image_text<'a>(
    alloc: Global,
    base: &'a Base,
    parts: &'a Parts,
) -> Result<ImageText<'a>, NoMemory>
    requires filled { AreFilled (tables_of parts.now) }
    requires sound { (tip : ℕ) × IsSound base.now.profile base.now.height tip (maps_by (tables_of parts.now)) (newest_first parts.now.undos.items) }
    ensures text { IfOk result (λ t. IsStateText Two base.now (newest_first parts.now.undos.items) (maps_by (tables_of parts.now)) t) }
    // A text that isn't too long is read again.
    ensures again { IfOk result (λ t. IsReadAgain base.now (newest_first parts.now.undos.items) (maps_by (tables_of parts.now)) t) }
{
    read_widths(base, parts);
    let listed = list_parts(alloc, parts)?;
    let undos = parts.undos.as_slice();
    let mut page = Page::new();
    put_head(&mut page, base);
    put_count(&mut page, undos.len());
    Ok(ImageText {
        listed,
        stage: Stage::InUndos { undos },
        page,
        given: 0,
    })
}
