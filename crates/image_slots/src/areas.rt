//! Which area counts behind so many selections, and which is drafted.

// The files: that of the selections, and the two areas.
ghost use Rattle.std.specs.Prelude.{◌≡◌};
ghost use Rattle.image_slots.specs.Selections.{selected_by, drafted_by};

/// The file of the selections.
pub const SELECTIONS_FILE: u8 = 0;

/// The area that so many selections select.
pub fn selected_area(count: u32) -> u8
    ensures { result ≡ selected_by count }
{
    1 + (count % 2) as u8
}

/// The other one, which the next selection names.
pub fn drafted_area(count: u32) -> u8
    ensures { result ≡ drafted_by count }
{
    2 - (count % 2) as u8
}
