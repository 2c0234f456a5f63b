//! A reader that feeds is a reader.
ghost use Rattle.cp_spool.specs.Alike.{AFedReaderIsAReader, AFedReaderIsLoadedFrom};
ghost use Rattle.cp_spool.specs.Alike.{AFedReaderStops, AFedReaderTouches};
ghost use Rattle.cp_spool.specs.Alike.{AFedReaderTouchesLoading};

/// States that any program walks on a reader that feeds from a queue as on a reader that has the
/// decks of the queue itself.
///
/// The queue is left as that reader is, after it has taken over what was read
/// ([`Queues::remove_read`](crate::Queues::remove_read)).
pub fn a_fed_reader_is_a_reader()
    ensures walks { AFedReaderIsAReader }
    ensures loads { AFedReaderIsLoadedFrom }
    ensures stops { AFedReaderStops }
    ensures touches { AFedReaderTouches }
    ensures touches_loading { AFedReaderTouchesLoading }
{}
