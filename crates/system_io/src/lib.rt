//! The files of a folder as a disk, a reader as a source, a writer as a sink, and sockets as a port; and what people are told.
#![tactic(auto)]

mod cause;
mod client;
mod clock;
mod datagrams;
mod door;
mod feed;
mod feed_link;
mod file_disk;
mod files;
mod folder;
mod frame_end;
mod link;
mod longest;
mod loopback;
mod memory_files;
mod net;
mod newcomer;
mod notices;
mod on_files;
mod open_file;
mod owner;
mod people;
mod reader_source;
mod reading;
mod search;
mod socket_port;
mod sockets;
mod stream;
mod streams;
mod system;
mod tally;
mod turn;
mod unsent;
mod writer_sink;

pub use file_disk::{DiskOf, FileDisk};
pub use files::Files;
pub use folder::Folder;
pub use link::{Link, Peer};
pub use memory_files::FilesOf;
pub use net::Net;
pub use people::People;
pub use reader_source::ReaderSource;
pub use socket_port::{PortOf, SocketPort};
pub use system::System;
pub use writer_sink::WriterSink;
