//! Stores over such a disk.

mod bytes;
mod failures;
mod files;
mod first_block;
mod life;
mod limits;
mod making;
mod memory;
mod saved_bytes;
mod slices;
mod starts;
mod stops;
