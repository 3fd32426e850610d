//! The memory of an execution: the bytes of an image, and what stores and the outside change.
#![tactic(auto)]

mod apart;
mod bytes;
mod image;
mod numbers;

pub use apart::are_apart;
pub use bytes::Bytes;
pub use image::{Cell, MemoryImage, Reply};
