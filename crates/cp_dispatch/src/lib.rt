//! The dispatcher: which user has the next slice of the processor, and which program of a channel
//! is served next.
//!
//! Its one theorem: nobody who is ready waits for ever. Users are in a queue by their logging on,
//! started programs in the serve queue by their starts. A turn takes the first who is ready, who
//! then goes to the end ([`Policy::slice`], [`Policy::serve`]); so whoever has j others before has
//! one of the next j + 1 turns, whoever logs on or off meanwhile ([`is_fair`] states that law).
//!
//! It is given who logs on and off, and which programs are started and ended. [`Policy::new`] and
//! [`Policy::started`] take memory, and no other call.
//!
//! ```
//! use cp_dispatch::Policy;
//! use user_names::UserNo;
//!
//! let (a, b) = (UserNo::new(0), UserNo::new(1));
//! let mut policy = Policy::new(alloc, 64)?;
//! policy.join(a);
//! policy.join(b);
//! assert_eq!(rt; policy.slice(0), a);
//! assert_eq!(rt; policy.users(), [b, a].as_slice());
//! assert_eq!(rt; policy.slice(0), b);
//! ```
#![tactic(auto)]

mod policy;
mod program;
mod saved;

pub use policy::{Policy, is_fair};
pub use program::Program;
pub use saved::one_by_saved;
