//! What a line says.
ghost use Rattle.event_lines.specs.EventLines.{LinesSayEvents};

/// The line of a told event is a line of a script, and says that event, in a network whose settings obey the rules.
pub fn lines_say_events()
    ensures { LinesSayEvents }
{}
