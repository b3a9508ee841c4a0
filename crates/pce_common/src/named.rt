//! How many requests a peer names in a message.
ghost use Rattle.std.specs.Prelude.{◌<◌, ◌↔◌, IsTrue, length};
ghost use Rattle.std.specs.List.{sum_by};

use pcep_messages::{ErrorReport, Notice};

/// Up to so many requests of a message are looked for by walks over those that are pending. Of more, an index
/// costs less.
pub const WALKS_MAX: usize = 16;

/// Whether notices name more requests than are looked for by walks.
pub fn notices_name_many(notices: &[Notice]) -> bool
    ensures { IsTrue result ↔ (WALKS_MAX < sum_by (λ notice. length notice.ids) notices.now) }
{
    let mut left = WALKS_MAX;
    for notice in notices {
        let named = notice.ids.len();
        if named > left {
            return true;
        }
        left -= named;
    }
    false
}

/// Whether errors name more requests than are looked for by walks.
pub fn reports_name_many(reports: &[ErrorReport]) -> bool
    ensures { IsTrue result ↔ (WALKS_MAX < sum_by (λ report. length report.ids) reports.now) }
{
    let mut left = WALKS_MAX;
    for report in reports {
        let named = report.ids.len();
        if named > left {
            return true;
        }
        left -= named;
    }
    false
}
