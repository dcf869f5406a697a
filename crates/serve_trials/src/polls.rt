//! Runs of `serve` over a port in memory.

ghost use Rattle.std.specs.Prelude.{◌≤◌, length};
ghost use Rattle.memory_io.specs.Kept.{Fits};

use crate::outside::{INIT, Outside, Trial, each_is_right, end_of, is_told};
use crate::texts::{bytes_of, field, number_or};
use bridge_core::Status;
use byte_io::{POLL_ROOM, Polled, Sent};
use memory_io::MemoryPort;
use nmc_base::NoMemory;
use std::alloc::Global;
use std::test::Fail;

/// Runs over new files: the words, the call of the port that fails, counted from 1 with the one that binds it, the polls, what is
/// sent, and the line.
static RUNS: &str = "\
serve 53 8336 5 | 5 | query 7 asked; nothing; feed 011d010000 block:0-100; feed block:100-285 | reply 7 told; feed accepted | 
serve 53 8336 1 | 1 | query 7 asked |  | port fault
serve 53 8336 3 |  | feed first 05 back; end; feed back | feed accepted; closed; feed base | 
serve 53 8336 2 | 3 | query 7 asked; query 8 asked | reply 8 told | 
serve 53 8336 2 |  | query 7 asked; query 8 asked; query 9 asked | reply 7 told; reply 8 told | 
serve 53 8336 1 |  | feed first first back | feed accepted; feed not-on-tip; feed base | 
serve 53 8336 4 |  | feed 01; feed 1d0100; feed 00 block; query 18446744073709551615  | feed accepted | 
serve 53 8336 3 |  | feed 011d010000 block:0-100; end; feed first | feed accepted | 
serve 53 8336 3 |  | feed 011d010000 block:0-100; query 1 asked; feed block:100-285 | reply 1 told; feed accepted | 
serve 53 8336 2 |  | feed 07 first; feed first 07 | closed; feed accepted; closed | 
serve 53 8336 1 |  | feed 030c000000 asked | feed 000c000000 told | 
serve 53 8336 1 |  |  |  | 
serve 65535 65535 2 |  |  |  | 
";

/// The same run, where each of its calls fails in turn.
static FAILING: &str = "\
serve 53 8336 5 | 1 | query 7 asked; feed first; end; query 8 asked; feed first |  | port fault
serve 53 8336 5 | 2 | query 7 asked; feed first; end; query 8 asked; feed first | reply 7 told; feed accepted; reply 8 told | 
serve 53 8336 5 | 3 | query 7 asked; feed first; end; query 8 asked; feed first | feed accepted; reply 8 told; feed not-on-tip | 
serve 53 8336 5 | 4 | query 7 asked; feed first; end; query 8 asked; feed first | reply 7 told; feed accepted; reply 8 told | 
serve 53 8336 5 | 5 | query 7 asked; feed first; end; query 8 asked; feed first | reply 7 told; reply 8 told; feed not-on-tip | 
serve 53 8336 5 | 6 | query 7 asked; feed first; end; query 8 asked; feed first | reply 7 told; feed accepted; reply 8 told | 
serve 53 8336 5 | 7 | query 7 asked; feed first; end; query 8 asked; feed first | reply 7 told; feed accepted; reply 8 told | 
serve 53 8336 5 | 8 | query 7 asked; feed first; end; query 8 asked; feed first | reply 7 told; feed accepted; feed not-on-tip | 
serve 53 8336 5 | 9 | query 7 asked; feed first; end; query 8 asked; feed first | reply 7 told; feed accepted; reply 8 told | 
serve 53 8336 5 | 10 | query 7 asked; feed first; end; query 8 asked; feed first | reply 7 told; feed accepted; reply 8 told | 
serve 53 8336 5 | 11 | query 7 asked; feed first; end; query 8 asked; feed first | reply 7 told; feed accepted; reply 8 told; feed not-on-tip | 
";

/// Runs with streams, each message behind its length.
static STREAMS: &str = "\
serve 53 8336 4 |  | stream 7 00; stream 7 0c123401000000; stream 8 000c asked; stream 7 000000000000 | over 8 000c told; over 7 000c told | 
serve 53 8336 1 |  | stream 7 000c asked 0000 000c asked 00 | over 7 000c told; over 7 000c told | 
serve 53 8336 3 |  | stream 7 000c1234; leaves 7; stream 7 000c asked | over 7 000c told | 
serve 53 8336 3 |  | query 7 asked; stream 7 000c asked; feed first | reply 7 told; over 7 000c told; feed accepted | 
serve 53 8336 3 | 3 | stream 7 000c asked; stream 7 000c asked; leaves 8 | over 7 000c told | 
serve 53 8336 2 | 2 | stream 7 000c asked; stream 7 000c asked | over 7 000c told | 
serve 53 8336 19 |  | stream 1 00; stream 2 00; stream 3 00; stream 4 00; stream 5 00; stream 6 00; stream 7 00; stream 8 00; stream 9 00; stream 10 00; stream 11 00; stream 12 00; stream 13 00; stream 14 00; stream 15 00; stream 16 00; stream 17 00; leaves 1; stream 17 000c asked | shut 17; over 17 000c told | 
";

/// A poll or a send of a row: its first word, a client or 0, and the text of its bytes.
#[derive(Clone, Copy)]
struct Item<'a> {
    kind: &'a str,
    client: u64,
    text: &'a str,
}

fn item_of(text: &str) -> Item<'_> {
    let (kind, rest) = text.split_once(' ').unwrap_or((text, ""));
    let (client, text) = match kind {
        "query" | "reply" | "stream" | "leaves" | "over" | "shut" => {
            rest.split_once(' ').unwrap_or((rest, ""))
        }
        _ => ("0", rest),
    };
    Item {
        kind,
        client: number_or(client, 0),
        text,
    }
}

/// The poll that brings these bytes.
fn polled(item: Item<'_>, bytes: &[u8]) -> Polled
    requires { length bytes.now ≤ 65536 }
    ensures { Fits result bytes.now }
{
    let len = bytes.len();
    match item.kind {
        "query" => Polled::Query {
            client: item.client,
            len,
        },
        "stream" => Polled::Stream {
            client: item.client,
            len,
        },
        "leaves" => Polled::StreamEnd {
            client: item.client,
        },
        "feed" => Polled::Feed { len },
        "end" => Polled::FeedEnd,
        _ => Polled::Nothing,
    }
}

/// Adds a poll. One with more bytes than a poll brings is none.
fn add(alloc: Global, port: &mut MemoryPort, text: &str) -> Result<(), NoMemory> {
    let item = item_of(text);
    let bytes = bytes_of(alloc, item.text)?;
    if bytes.len() <= POLL_ROOM {
        port.add(polled(item, &bytes), &bytes)?;
    }
    Ok(())
}

/// Adds the polls.
pub(crate) fn add_all(alloc: Global, port: &mut MemoryPort, polls: &str) -> Result<(), NoMemory> {
    for text in polls.split("; ") {
        add(alloc, port, text)?;
    }
    Ok(())
}

/// Whether this is what was sent.
fn is_item(sent: Option<Sent<'_>>, item: Item<'_>, want: &[u8]) -> bool {
    match sent {
        Some(Sent::Reply { client, bytes }) => {
            item.kind == "reply" && client == item.client && bytes == want
        }
        Some(Sent::Stream { client, bytes }) => {
            item.kind == "over" && client == item.client && bytes == want
        }
        Some(Sent::StreamClosed { client }) => item.kind == "shut" && client == item.client,
        Some(Sent::Feed { bytes }) => item.kind == "feed" && bytes == want,
        Some(Sent::Closed) => item.kind == "closed",
        None => item.kind == "",
    }
}

fn is_sent(alloc: Global, sent: Option<Sent<'_>>, text: &str) -> Result<bool, NoMemory> {
    let item = item_of(text);
    let want = bytes_of(alloc, item.text)?;
    Ok(is_item(sent, item, &want))
}

/// The port sent these, and no more.
pub(crate) fn sends_alone(alloc: Global, port: &MemoryPort, sends: &str) -> Result<bool, NoMemory> {
    let mut count = 0usize;
    for text in sends.split("; ") {
        if !is_sent(alloc, port.sent(count), text)? {
            return Ok(false);
        }
        count = count.saturating_add(1);
    }
    Ok(sends.is_empty() || port.sent(count).is_none())
}

struct Served;

impl Trial for Served {
    fn is_right(alloc: Global, outside: &mut Outside, row: &str) -> Result<bool, NoMemory> {
        if end_of(alloc, outside, INIT) != Status::Done {
            return Ok(false);
        }
        outside.port = MemoryPort::new(alloc, &[number_or(field(row, 1), 0)])?;
        add_all(alloc, &mut outside.port, field(row, 2))?;
        let status = end_of(alloc, outside, field(row, 0));
        Ok(
            sends_alone(alloc, &outside.port, field(row, 3))?
                && is_told(alloc, status, field(row, 4))?,
        )
    }
}

#[test]
fn answers_clients_and_the_feed(rt: HostRuntime) -> Result<(), Fail> {
    each_is_right::<Served>(&rt, rt.alloc(), RUNS)?;
    Ok(())
}

#[test]
fn answers_over_streams(rt: HostRuntime) -> Result<(), Fail> {
    each_is_right::<Served>(&rt, rt.alloc(), STREAMS)?;
    Ok(())
}

#[test]
fn goes_on_behind_calls_that_fail(rt: HostRuntime) -> Result<(), Fail> {
    each_is_right::<Served>(&rt, rt.alloc(), FAILING)?;
    Ok(())
}
