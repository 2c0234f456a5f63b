//! Laws of a machine with devices, as functions that promise them.
ghost use Rattle.machine_devices.specs.Forgotten.{PrintedLinesDoNotMatter};
ghost use Rattle.machine_devices.specs.OneLife.{LinesAreOne, LivesAreApart, LivesAreOne};
ghost use Rattle.machine_devices.specs.OneReply.{OutcomesAreOne};
ghost use Rattle.machine_devices.specs.Turned.{OnlyLinesTurn};
ghost use Rattle.machine_devices.specs.Working.{AllGoOnHavingPrograms, DeliveriesChangeNone};
ghost use Rattle.machine_devices.specs.Working.{DevicesStay, NoneWorksAtFirst};
ghost use Rattle.machine_devices.specs.Working.{StartsAreNumbered, WorksWithProgram};
ghost use Rattle.machine_devices.specs.Written.{ClosedFilesStay, WrittenFilesDoNotMatter};
ghost use Rattle.machine_devices.specs.Attention.{AttentionAgreesAtFirst, AttentionGoesOnAgreeing};

/// States that the console's subchannel has its mark of attention exactly if a line waits at the
/// console, and no other subchannel has one, whatever happened to the machine.
///
/// A status of the console that is pending says attention if a line waits.
pub fn attention_agrees()
    ensures first { AttentionAgreesAtFirst }
    ensures later { AttentionGoesOnAgreeing }
{}

/// States that the same events leave the same machine with devices, whoever else is logged on at
/// each of them; and that a line typed at one machine reports one thing.
pub fn a_life_comes_to_one_end()
    ensures life { LivesAreOne }
    ensures line { LinesAreOne }
    ensures apart { LivesAreApart }
    ensures reported { OutcomesAreOne }
{}

/// States that a device that works has a program, and that the devices of a machine stay, whatever
/// happens to it.
///
/// A device that is started gets the next number, or a higher one if others are started before it;
/// decks and messages start and end nothing.
pub fn what_works_has_a_program()
    ensures first { NoneWorksAtFirst }
    ensures later { AllGoOnHavingPrograms }
    ensures served { WorksWithProgram }
    ensures devices { DevicesStay }
    ensures numbered { StartsAreNumbered }
    ensures delivered { DeliveriesChangeNone }
{}

/// States that no event but a typed line turns a machine on or off.
pub fn only_lines_turn()
    ensures { OnlyLinesTurn }
{}

/// States that lines that were printed before do not matter to a machine with devices: whatever
/// happens to it, it does the same without them.
pub fn printed_lines_do_not_matter()
    ensures { PrintedLinesDoNotMatter }
{}

/// States that entries of closed files that were written elsewhere do not matter to a machine with
/// devices: whatever happens to it, it does the same without them, and its closed files stay.
pub fn written_files_do_not_matter()
    ensures lives { WrittenFilesDoNotMatter }
    ensures stays { ClosedFilesStay }
{}
