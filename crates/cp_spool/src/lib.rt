//! The spool files of all users: the decks in their readers, and the files that their punches and
//! printers closed.
//!
//! Its one theorem: the files are lists ([`Queues`]). A contract sees of each user the decks of his
//! reader in order, how far the first is read, and the files that his punch and his printer closed;
//! what a call does to them is one equation of `specs/Queues.antt`, and a call that is refused
//! memory leaves them as they were.
//!
//! A file is kept once, in a slab, and named by its key. What a punch made for a user moves: its
//! entries come into the slab as they are ([`Queues::close_punched`]), its key comes to the queue
//! of that user's reader ([`Queues::deliver`]), and no card is copied. The key stays with the
//! punch, too, since a user's closed files are part of what he is shown. A deck that was given is
//! kept by its reader alone, and is gone when it was read or purged. A closed file that was written
//! elsewhere can lose its entries ([`Queues::forget_printed`]): its place stays.
//!
//! A reader feeds from the queue of its user ([`FedReader`]): it is a [`Device`](s370_walk::Device)
//! that leaves the queue as it is while a program runs, and says afterwards what it has read.
//!
//! ```
//! use cp_spool::{FedReader, Queues, SpoolReader};
//! use user_names::UserNo;
//! use s370_walk::{Answer, CommandCode, Device, Flags, Order};
//! use unit_record::{Entry, RecordBytes, Sender, Target};
//!
//! let (a, b) = (UserNo::new(0), UserNo::new(1));
//! let mut queues = Queues::new(alloc, 2)?;
//! queues.make_room(a)?;
//! let card = Entry::new(0x01, RecordBytes::of(&[0xC1; 80]));
//! queues.close_punched(a, Target::User(1), vec![in alloc; card]?);
//! queues.deliver(a, 0, b, 1, Sender::User(0))?;
//! let mut reader = FedReader::new(&queues, b, SpoolReader::new());
//! let read = Order { command: CommandCode { code: 0x02 }, first: true, flags: Flags::NONE };
//! assert_eq!(rt; reader.command(read)?, Answer::Input(80));
//! assert_eq!(rt; reader.give(), 0xC1);
//! reader.finish();
//! let (_reader, progress) = reader.into_parts();
//! queues.remove_read(b, progress);
//! assert_eq!(rt; queues.punched_count(a), 1); // the file stays with the punch
//! ```
#![tactic(auto)]

mod error;
mod file;
mod forgetting;
mod keeping;
mod laws;
mod progress;
mod queue;
mod queues;
mod reader;
mod saved;
mod seen;

pub use error::SpoolError;
pub use file::{Contents, SpoolFile};
pub use laws::a_fed_reader_is_a_reader;
pub use progress::ReaderProgress;
pub use queues::Queues;
pub use reader::{FedReader, SpoolReader};
pub use seen::SeenDeck;
