//! The image of a partition: a record with its limits, its bytes, and the reading of these and of no others.
//!
//! An *image* is what a program runs from: the code, the number of tasks and data words, the words of protected objects, the place of
//! each unit's code, and, in version 2, a table of lines.
//!
//! - `image`, `parts`, `limits`: images, what they are made of, and their limits.
//! - `bytes`: the bytes of an image.
//! - `reading`, `units`, `regions`, `lines`, `code`: reading the parts of an image.
//! - `fault`: why there is no image.
//! - `laws`: a law of images, as the contract of a function without code.
#![tactic(auto)]

mod bytes;
mod code;
mod fault;
mod image;
mod laws;
mod limits;
mod lines;
mod parts;
mod reading;
mod regions;
mod units;

pub use fault::LinkFault;
pub use image::Image;
pub use laws::image_bytes_tell;
pub use limits::{MAX_CODE, MAX_DATA_WORDS, MAX_OBJECTS, MAX_PROTECTED, MAX_TASKS};
pub use parts::{ImageObject, ImageParts, Region};
