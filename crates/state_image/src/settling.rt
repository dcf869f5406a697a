//! What becomes of what was read whole.

ghost use Rattle.std.specs.Prelude.{◌≡◌, ℕ, List, Err, OnOk};
ghost use Rattle.states_below.specs.Scan.{TellsWhether};
ghost use Rattle.state_image.specs.Answers.{IsSoundOn, IsImageAnswer};
ghost use Rattle.state_image.specs.Forming.{AreFormed, IsReadWhole, AreOf, TellsFault, Judges};
ghost use Rattle.state_image.specs.Registering.{AreRegistered};

use crate::fault::ImageFault;
use crate::reading::Reading;
use name_tables::Parts;
use nmc_base::{Base, HIGHEST_HEIGHT, NoMemory};
use registrations::fill;
use states_below::is_image_sound;
use std::alloc::Global;
use undo_records::Version;

/// Whether the parts are sound on the base.
fn is_sound(alloc: Global, base: &Base, parts: &Parts) -> Result<bool, NoMemory>
    requires { AreFormed parts.now }
    ensures { TellsWhether (IsSoundOn base.now parts.now) result }
{
    let tip = base.height as u64 + parts.undos.len() as u64;
    if tip > HIGHEST_HEIGHT as u64 {
        return Ok(false);
    }
    is_image_sound(
        alloc,
        base.profile,
        base.height,
        tip as u32,
        parts.undos.as_slice(),
        &parts.coins,
        &parts.names,
    )
}

/// The fault of parts that aren't sound on the base.
fn soundness(alloc: Global, base: &Base, parts: &Parts) -> Result<(), ImageFault>
    requires { AreFormed parts.now }
    ensures { TellsFault (IsSoundOn base.now parts.now) result }
{
    if is_sound(alloc, base, parts)? {
        Ok(())
    } else {
        Err(ImageFault::Damaged { at: 0 })
    }
}

/// Sets the registration heights that a text of this version leaves out.
fn register(alloc: Global, version: Version, parts: &mut Parts) -> Result<(), NoMemory>
    ensures { OnOk result (AreRegistered version parts.old parts.new) }
{
    match version {
        Version::One => fill(alloc, &mut parts.names, &mut parts.undos),
        Version::Two => Ok(()),
    }
}

/// Sets the registration heights, and tells the fault of parts that aren't sound on the base then.
fn judge(alloc: Global, version: Version, base: &Base, parts: &mut Parts) -> Result<(), ImageFault>
    requires { AreFormed parts.old }
    ensures { Judges version base.now parts.old parts.new result }
{
    register(alloc, version, parts)?;
    soundness(alloc, base, parts)
}

/// Lets go of parts. Call it where the parts of an image are of no use: each place that drops them itself is dear to prove.
pub fn let_go(parts: Parts) {
    parts.let_go();
}

impl Reading {
    /// The base and the parts.
    fn split(self) -> (Base, Parts)
        ensures { AreOf self result.0 result.1 }
    {
        let Reading {
            base,
            undos,
            tables,
            ..
        } = self;
        (base, Parts::of(tables, undos))
    }

    /// Lets go of what was read, for this fault.
    pub(crate) fn give_up(self, fault: ImageFault) -> Result<(Base, Parts), ImageFault>
        ensures { result ≡ Err fault }
    {
        self.let_go();
        Err(fault)
    }

    /// Lets go of what was read.
    pub(crate) fn let_go(self) {
        let (_, parts) = self.split();
        let_go(parts);
    }

    /// The base and the parts, where they are sound.
    pub(crate) fn settle(self, alloc: Global) -> Result<(Base, Parts), ImageFault>
        requires { (text : List ℕ) × IsReadWhole text self }
        ensures { (text : List ℕ) → IsReadWhole text self → IsImageAnswer text result }
    {
        let version = self.version;
        let (base, mut parts) = self.split();
        match judge(alloc, version, &base, &mut parts) {
            Ok(()) => Ok((base, parts)),
            Err(fault) => {
                let_go(parts);
                Err(fault)
            }
        }
    }
}
