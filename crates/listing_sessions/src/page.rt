//! The text of a page.

ghost use Rattle.std.specs.Prelude.{◌≡◌, ◌+◌, ◌≤◌, ◌∷◌, ◌++◌, length, vec_capacity, vec_len};
ghost use Rattle.std.specs.Int.{w32, to_le_bytes};
ghost use Rattle.listing_sessions.specs.Listing.{flag, row_text};
ghost use Rattle.listing_sessions.specs.Pages.{longest_row};
ghost use Rattle.pin_views.specs.Rows.{row_of};
ghost use Rattle.sliced_save.specs.Rows.{FitsRow};

use chain_names::Item;

/// No page has more rows.
pub const LARGEST_PAGE: u32 = 50;

/// No page is longer: a head of 5 bytes, and 50 rows of 8 bytes with a name of 255 and a value of 1,023.
pub const LONGEST_PAGE: usize = 64_305;

/// Appends bytes for which there is room.
fn put(text: &mut Vec<u8>, bytes: &[u8])
    requires room { vec_len text.old + length bytes.now ≤ vec_capacity text.old }
    ensures text { text.new.items ≡ text.old.items ++ bytes.now }
    ensures capacity { vec_capacity text.old ≤ vec_capacity text.new }
{
    let _ = text.extend_from_slice(bytes);
}

/// Begins a page in place of the text: whether it is the last, and how many rows it has.
pub(crate) fn write_head(text: &mut Vec<u8>, is_last: bool, count: u32)
    requires room { 5 ≤ vec_capacity text.old }
    ensures text { text.new.items ≡ flag is_last ∷ to_le_bytes w32 count }
    ensures capacity { vec_capacity text.old ≤ vec_capacity text.new }
{
    text.clear();
    put(text, &[u8::from(is_last)]);
    put(text, &count.to_le_bytes());
}

/// Appends the row of a name with this last item: the length of the name in one byte, the name, the height in 4 bytes, a byte that is 1
/// where the name is served, the length of the value in 2 bytes, and the value. Numbers have their low byte first.
pub(crate) fn write_row(text: &mut Vec<u8>, name: &[u8], item: &Item, is_served: bool)
    requires fits { FitsRow name.now (row_of item.now) }
    requires room { vec_len text.old + longest_row ≤ vec_capacity text.old }
    ensures text { text.new.items ≡ text.old.items ++ row_text (λ other. is_served) (name.now, row_of item.now) }
    ensures short { vec_len text.new ≤ vec_len text.old + longest_row }
    ensures capacity { vec_capacity text.old ≤ vec_capacity text.new }
{
    let value = item.value.as_slice();
    put(text, &[name.len() as u8]);
    put(text, name);
    put(text, &item.height.to_le_bytes());
    put(text, &[u8::from(is_served)]);
    put(text, &(value.len() as u16).to_le_bytes());
    put(text, value);
}
