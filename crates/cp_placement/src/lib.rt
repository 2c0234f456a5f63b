//! Where the minidisks of a directory's users are on the volumes that a system is booted with.
//!
//! Its one theorem: where each minidisk has a volume with all its cylinders, a user sees on his
//! seats ([`seats_of`]) the cylinders of his minidisks (proofs/Seated.antt, `are_disks`), and no
//! minidisk is written on by another, of his (`is_users`) or of another user (`users_apart`), since
//! no two of a directory conflict.
//!
//! [`has_twins`], [`missing_volume`] and [`past_end`] say why a system is not booted.
//!
//! ```
//! use ckd_volume::Volume;
//! use cp_directory::read_directory;
//! use cp_placement::{past_end, seats_of};
//! use user_names::UserNo;
//! use s370_num::DevAddr;
//!
//! let directory = read_directory(alloc, b"USER A PW 8K\nMDISK 191 3330 3 2 VOL1 W\n")?;
//! let small = [Volume::blank(alloc, *b"VOL1  ", 4)?];
//! let past = (UserNo::new(0), DevAddr::new(0x191));
//! assert_eq!(rt; past_end(&small, directory.users()), Some(past)); // cylinder 4 is not there
//! let volumes = [Volume::blank(alloc, *b"VOL0  ", 1)?, Volume::blank(alloc, *b"VOL1  ", 5)?];
//! assert_eq!(rt; past_end(&volumes, directory.users()), None);
//! let seats = seats_of(alloc, &volumes, directory.users()[0].minidisks())?;
//! assert_eq!(rt; (seats[0].volume(), seats[0].minidisk().extent().start()), (1, 3));
//! ```
#![tactic(auto)]

mod checks;
mod seats;

pub use checks::{has_twins, missing_volume, past_end};
pub use seats::seats_of;
