//! Devices, sources and sinks: in memory, where they tell their contents; over readers and writers,
//! where they tell what those tell; and over files, where they tell nothing. And pages in memory,
//! with no device below them.
#![tactic(auto)]

mod event;
mod failing;
mod file;
mod image;
mod locked_file;
mod mem_pages;
mod memory;
mod past;
mod reader;
mod sink;
mod source;
mod step;
mod step_device;
mod steps;
mod store_file;
mod stored;
mod writer;

pub use file::FileDevice;
pub use image::Unsynced;
pub use mem_pages::MemPages;
pub use memory::MemDevice;
pub use reader::ReaderSource;
pub use sink::MemSink;
pub use source::MemSource;
pub use step::Step;
pub use step_device::StepDevice;
pub use store_file::{StoreFile, StoreFiles};
pub use writer::WriterSink;
