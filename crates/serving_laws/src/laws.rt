//! Laws of a server that writes a record.
ghost use Rattle.serving_laws.specs.Writing.{ServedRecordsAreReplayed};
ghost use Rattle.serving_laws.specs.Opening.{ServersHaveDays};

use record_laws::records_are_replayed;

/// Where a record is asked for, the lock of a server is opened with a tape that holds all that is told of its network by then: the loads
/// that its settings name. So what any seat at the lock has seen is a day of which a record can be played again.
pub fn servers_have_days()
    ensures { ServersHaveDays }
{}

/// So where the first lines of the record that such a server leaves are played on a new network of its settings, beside its files, each
/// event is accepted, and the play says to everybody what the server had said at some moment.
pub fn served_records_are_replayed()
    ensures { ServedRecordsAreReplayed }
{
    records_are_replayed();
}
