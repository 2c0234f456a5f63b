//! Volume images.
//!
//! Its theorems: a volume has one image of version 2, and [`write_image`] writes it, or a beginning
//! of it where the file fails; [`read_image`] gives the volume whose image of version 1 or 2 the
//! bytes are, or says their first fault (docs/FORMATS.md, "Volume images"). By [`one_reading`] no
//! two answers fit the same bytes, and by [`reads_back`] what is written is read back as the same
//! volume.
//!
//! ```
//! use ckd_image::{read_image, write_image};
//! use ckd_volume::Volume;
//! use s370_num::host::Bytes;
//!
//! let volume = Volume::blank(alloc, *b"WORK01", 2)?;
//! let mut file = Vec::new(alloc);
//! write_image(alloc, &volume, &mut file)?;
//! let read = read_image(alloc, &mut Bytes::new(&file))?;
//! assert_eq!(rt; (read.volser(), read.count()), (*b"WORK01", 2));
//! ```
//!
//! Reading goes from the whole to its parts: [`header`], and in [`reader`] the tracks, the records
//! of each, and the end.
#![tactic(auto)]

mod faults;
mod header;
mod laws;
mod reader;
mod writer;

pub use faults::{ImageError, fault_line, status};
pub use laws::{one_reading, reads_back};
pub use reader::{read_image, volume_of};
pub use writer::{image, write_image};
