//! Laws of a record.
ghost use Rattle.record_laws.specs.Days.{HandsAreSaid};
ghost use Rattle.record_laws.specs.Records.{EndsAreRecords};
ghost use Rattle.record_laws.specs.Replayed.{RecordsAreReadable, RecordsAreReplayed, WholeRecordsAreReplayed};

use event_lines::lines_say_events;

/// Each event that is handed out of a tape is one of its network: its peers are those of the settings. So where it has numbers of their
/// types, and octets where octets came, its line says it.
pub fn hands_are_said()
    ensures { HandsAreSaid }
{}

/// Whatever ends a record, by the tape or a fault, it leaves the files of one: some first of the events that were handed out.
pub fn ends_are_records()
    ensures { EndsAreRecords }
{}

/// The lines of a record have the form of lines of scripts, and the topologies that they name are there, where octets came with each
/// receipt of octets: so a play of it ends at no line.
pub fn records_are_readable()
    ensures { RecordsAreReadable }
{
    lines_say_events();
}

/// Where the first lines of a record, however many, are played on a new network of its settings beside the files that it has, each event
/// is accepted, and the play says to everybody what the day had said at some moment: the same answers and deeds, event by event, and the
/// same octets to each peer. What is proved of every script holds of it.
pub fn records_are_replayed()
    ensures { RecordsAreReplayed }
{
    lines_say_events();
}

/// Where the record ended in order and all its lines are played, nothing is left out that was told of the turns up to the end of the tape.
pub fn whole_records_are_replayed()
    ensures { WholeRecordsAreReplayed }
{
    lines_say_events();
}
