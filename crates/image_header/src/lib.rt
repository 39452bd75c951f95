//! What the header of an image settles: whether an image that begins with these bytes can be one, and how long it is then.
//!
//! So a reader of images from a stream needs no more than the first 20 bytes to refuse most of those that are none.
//!
//! The definitions to believe are those in `specs/`.
#![tactic(auto)]

mod header;
mod laws;

pub use header::image_length;
pub use laws::headers_settle_images;
pub use tables::HEADER_LENGTH;
