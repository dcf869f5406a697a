//! The text of a mirror of one moment, in slices.

ghost use Rattle.std.specs.Prelude.{◌≡◌, ◌+◌, ◌-◌, ◌*◌, ◌≤◌, drop, length, min, take};
ghost use Rattle.image_grammar.specs.Text.{image_text};
ghost use Rattle.undo_records.specs.declared.version.Version.TheVariants.{Two};
ghost use Rattle.sliced_save.specs.Mirror.{mirror_image};

use crate::giving::Giving;
use crate::mirror::Mirror;
use crate::waste::MirrorWaste;
use nmc_base::Steps;
use std::marker::Model;
use std::sync::ledger::Ledger;

/// The text of the image of a mirror as it was when this was made, given out in slices. It holds the mirror's nodes to the end, and
/// takes no memory.
///
/// Contracts see the whole text, and how many of its bytes were given out.
#[derive(Drop)]
pub struct Slices {
    giving: Giving,
    /// How many bytes were given out.
    given: u64,
}

impl Model for Slices {
    ghost use Rattle.std.specs.Prelude.{◌≡◌, ◌≤◌, drop, length};
    ghost use Rattle.sliced_save.specs.Sliced.{Sliced};

    ghost Value = { Sliced };

    ghost view = { λ s. record { text = s.giving.text; given = s.given } };

    ghost invariant = { λ s. (s.given ≤ length s.giving.text) × (s.giving.rest ≡ drop s.given s.giving.text) };
}

impl Slices {
    /// All of the mirror's text, of which nothing was given out.
    pub(crate) fn of(mirror: Mirror) -> Slices
        ensures text { result.text ≡ image_text Two (mirror_image mirror) }
        ensures given { result.given ≡ 0 }
    {
        let giving = Giving::of(mirror);
        Slices { giving, given: 0 }
    }

    /// What is to be let go of where the save has ended. It takes no memory.
    pub fn into_waste(self) -> MirrorWaste {
        self.giving.into_mirror().into_waste()
    }

    /// How many bytes the whole text has.
    pub fn len(&self) -> u64
        ensures { result ≡ length self.now.text }
    {
        self.giving.len()
    }

    /// How many bytes are still to be given out.
    pub fn left(&self) -> u64
        ensures left { result ≡ length self.now.text - self.now.given }
        ensures within { self.now.given ≤ length self.now.text }
    {
        self.giving.len() - self.given
    }

    /// Puts the next bytes of the text into the buffer, and answers how many. It fills the buffer, or gives all that is left.
    pub fn next<L: Ledger>(&mut self, buf: &mut [u8], steps: &mut Steps<L>) -> usize
        ensures count { result ≡ min (length buf.old) (length self.old.text - self.old.given) }
        ensures bytes { take result buf.new ≡ take result (drop self.old.given self.old.text) }
        // Behind them the buffer stays as it was.
        ensures behind { drop result buf.new ≡ drop result buf.old }
        ensures given { self.new ≡ record self.old { given = self.old.given + result } }
        // Each value that it begins is looked up, and has a byte at least.
        ensures cost { steps.new ≤ steps.old + 2 * (result + 1) }
    {
        // Its length fits its type.
        let _whole = self.giving.len();
        let count = self.giving.next(buf, steps);
        self.given += count as u64;
        count
    }
}
