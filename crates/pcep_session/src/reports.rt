//! The first error and the first OPEN of a message of errors.
ghost use Rattle.std.specs.Prelude.{◌≡◌};
ghost use Rattle.pcep_session.specs.Reports.{first_error_of, first_opening_of};

use pcep_messages::ErrorReport;
use pcep_objects::OpenBody;

/// The first error of a message, by type and value.
pub(crate) fn first_error(reports: &[ErrorReport]) -> Option<(u8, u8)>
    ensures { result ≡ first_error_of reports.now }
{
    for report in reports {
        if let [error, ..] = report.errors.as_slice() {
            return Some(*error);
        }
    }
    None
}

/// The first OPEN of a message of errors.
pub(crate) fn first_opening(reports: &[ErrorReport]) -> Option<OpenBody>
    ensures { result ≡ first_opening_of reports.now }
{
    for report in reports {
        if let Some(opening) = report.opening {
            return Some(opening);
        }
    }
    None
}
