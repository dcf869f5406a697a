//! The lines of a report.

ghost use Rattle.std.specs.Prelude.{◌≡◌, ◌≤◌, ◌++◌, length};
ghost use Rattle.std.specs.Fmt.{decimal};
ghost use Rattle.hex.specs.Hex.{encode_lower};
ghost use Rattle.name_report.specs.Page.{Puts, outgoing};
ghost use Rattle.name_report.specs.Text.{bytes_text, entry_line, item_line, item_lines, state_text, tip_line};
ghost use Rattle.name_report.specs.declared.page.TheConstants.{PAGE};

use crate::page::Page;
use byte_io::Sink;
use chain_names::Item;
use frame_loop::Undelivered;
use itoa::Buffer;
use nmc_base::Tip;

/// Puts two digits for each byte.
fn put_digits<K: Sink>(page: &mut Page, sink: &mut K, bytes: &[u8]) -> Result<(), Undelivered>
    ensures { Puts (outgoing (K.seen sink.old) page.old) (outgoing (K.seen sink.new) page.new) (encode_lower bytes.now) result }
{
    for byte in bytes {
        let mut digits = [0; 2];
        match hex::encode_to_slice([*byte], &mut digits) {
            Ok(()) => {}
            Err(_) => unreachable!(),
        }
        page.put(sink, &digits)?;
    }
    Ok(())
}

/// Puts a text, and behind it the digits of the bytes, or a dash where there are none.
fn put_bytes<K: Sink>(
    page: &mut Page,
    sink: &mut K,
    before: &[u8],
    bytes: &[u8],
) -> Result<(), Undelivered>
    requires { length before.now ≤ PAGE }
    ensures { Puts (outgoing (K.seen sink.old) page.old) (outgoing (K.seen sink.new) page.new) (before.now ++ bytes_text bytes.now) result }
{
    page.put(sink, before)?;
    if bytes.is_empty() {
        return page.put(sink, b"-");
    }
    put_digits(page, sink, bytes)
}

/// Puts a text, and behind it a number.
fn put_number<K: Sink>(
    page: &mut Page,
    sink: &mut K,
    before: &[u8],
    number: u32,
) -> Result<(), Undelivered>
    requires { length before.now ≤ PAGE }
    ensures { Puts (outgoing (K.seen sink.old) page.old) (outgoing (K.seen sink.new) page.new) (before.now ++ decimal number) result }
{
    page.put(sink, before)?;
    page.put(sink, Buffer::new().format(number).as_bytes())
}

/// Puts the line of a tip.
pub(crate) fn put_tip<K: Sink>(page: &mut Page, sink: &mut K, tip: Tip) -> Result<(), Undelivered>
    ensures { Puts (outgoing (K.seen sink.old) page.old) (outgoing (K.seen sink.new) page.new) (tip_line tip.height tip.hash.0) result }
{
    let mut hash = tip.hash.0;
    hash.reverse();
    put_number(page, sink, b"tip ", tip.height)?;
    page.put(sink, b" ")?;
    put_digits(page, sink, &hash)?;
    page.put(sink, b"\n")
}

/// The state of a name, between blanks.
fn state(served: bool) -> &'static [u8]
    ensures text { result.now ≡ state_text served }
    ensures short { length result.now ≤ PAGE }
{
    if served { b" served " } else { b" lapsed " }
}

/// Puts the line of a name with its entry.
pub(crate) fn put_entry<K: Sink>(
    page: &mut Page,
    sink: &mut K,
    name: &[u8],
    entry: &Item,
    served: bool,
) -> Result<(), Undelivered>
    ensures { Puts (outgoing (K.seen sink.old) page.old) (outgoing (K.seen sink.new) page.new) (entry_line name.now entry.now served) result }
{
    put_bytes(page, sink, b"name ", name)?;
    put_number(page, sink, b" ", entry.height)?;
    put_bytes(page, sink, state(served), entry.value.as_slice())?;
    page.put(sink, b"\n")
}

/// Puts the line of a value.
fn put_item<K: Sink>(page: &mut Page, sink: &mut K, item: &Item) -> Result<(), Undelivered>
    ensures { Puts (outgoing (K.seen sink.old) page.old) (outgoing (K.seen sink.new) page.new) (item_line item.now) result }
{
    put_number(page, sink, b"  at ", item.height)?;
    put_number(page, sink, b" since ", item.registered)?;
    put_bytes(page, sink, b" ", item.value.as_slice())?;
    page.put(sink, b"\n")
}

/// Puts a line for each value, from the first.
pub(crate) fn put_items<K: Sink>(
    page: &mut Page,
    sink: &mut K,
    items: &[Item],
) -> Result<(), Undelivered>
    ensures { Puts (outgoing (K.seen sink.old) page.old) (outgoing (K.seen sink.new) page.new) (item_lines items.now) result }
{
    for item in items {
        put_item(page, sink, item)?;
    }
    Ok(())
}
