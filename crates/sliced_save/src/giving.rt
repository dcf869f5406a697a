//! The text of a mirror's image, while it is given out.

ghost use Rattle.std.specs.Prelude.{◌≡◌, ◌+◌, ◌*◌, ◌≤◌, drop, length, min, take};
ghost use Rattle.image_grammar.specs.Text.{image_text};
ghost use Rattle.image_writer.specs.Pieces.{Gives};
ghost use Rattle.undo_records.specs.declared.version.Version.TheVariants.{Two};
ghost use Rattle.sliced_save.specs.Mirror.{mirror_image};

use crate::mirror::Mirror;
use crate::stage::Stage;
use image_writer::copy::copy_into;
use image_writer::page::Page;
use image_writer::values::{put_count, put_head};
use nmc_base::Steps;
use std::marker::Model;
use std::sync::ledger::Ledger;

/// The text of a mirror's image while it is given out. Contracts see the whole text, and what is left of it.
#[derive(Drop)]
pub(crate) struct Giving {
    mirror: Mirror,
    /// What comes behind the page.
    stage: Stage,
    page: Page,
    /// How many bytes of the page were given out.
    put: usize,
}

impl Model for Giving {
    ghost use Rattle.std.specs.Prelude.{◌≤◌, ◌++◌, drop, length};
    ghost use Rattle.image_grammar.specs.Text.{image_text};
    ghost use Rattle.undo_records.specs.declared.version.Version.TheVariants.{Two};
    ghost use Rattle.sliced_save.specs.Left.{left};
    ghost use Rattle.sliced_save.specs.Mirror.{mirror_image};
    ghost use Rattle.sliced_save.specs.Sliced.{Giving as Given};

    ghost Value = { Given };

    ghost view = { λ g. record { text = image_text Two (mirror_image g.mirror); rest = drop g.put g.page ++ left g.mirror g.stage } };

    ghost invariant = { λ g. g.put ≤ length g.page };
}

impl Giving {
    /// All of the mirror's text is left.
    pub(crate) fn of(mirror: Mirror) -> Giving
        ensures text { result.text ≡ image_text Two (mirror_image mirror) }
        ensures rest { result.rest ≡ result.text }
    {
        let mut page = Page::new();
        put_head(&mut page, &mirror.base);
        put_count(&mut page, mirror.undos.count());
        Giving {
            mirror,
            stage: Stage::InUndos { from: 0 },
            page,
            put: 0,
        }
    }

    /// The mirror, where no more of its text is given out.
    pub(crate) fn into_mirror(self) -> Mirror {
        self.mirror
    }

    /// How many bytes the whole text has.
    pub(crate) fn len(&self) -> u64
        ensures { result ≡ length self.now.text }
    {
        self.mirror.text_len()
    }

    /// Puts the next bytes into the buffer, from a place on, and answers how many.
    fn give<L: Ledger>(&mut self, buf: &mut [u8], at: usize, steps: &mut Steps<L>) -> usize
        requires { at ≤ length buf.old }
        ensures gives { Gives self.old.rest self.new.rest buf.old buf.new at result }
        ensures text { self.new.text ≡ self.old.text }
        ensures cost { steps.new ≤ steps.old + 2 }
    {
        if self.put == self.page.as_slice().len() {
            self.page.clear();
            self.put = 0;
            self.stage = self.stage.step(&self.mirror, &mut self.page, steps);
        }
        let count = copy_into(&self.page.as_slice()[self.put..], buf, at);
        self.put += count;
        count
    }

    /// Puts the next bytes of the text into the buffer, and answers how many. It fills the buffer, or gives all that is left.
    pub(crate) fn next<L: Ledger>(&mut self, buf: &mut [u8], steps: &mut Steps<L>) -> usize
        ensures count { result ≡ min (length buf.old) (length self.old.rest) }
        ensures bytes { take result buf.new ≡ take result self.old.rest }
        ensures behind { drop result buf.new ≡ drop result buf.old }
        ensures rest { self.new.rest ≡ drop result self.old.rest }
        ensures text { self.new.text ≡ self.old.text }
        ensures cost { steps.new ≤ steps.old + 2 * (result + 1) }
    {
        let mut filled = 0;
        while filled < buf.len() {
            let count = self.give(buf, filled, steps);
            if count == 0 {
                return filled;
            }
            filled += count;
        }
        filled
    }
}
