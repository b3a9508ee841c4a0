//! The types of METRIC (RFC 5440, section 7.8), both ways.
ghost use Rattle.std.specs.Prelude.{◌≡◌, Some, None, if◌then◌else◌};
ghost use Rattle.pcep_messages.specs.Refusals.{is_metric};
ghost use Rattle.pcep_messages.specs.Requests.{metric_of_type, type_of_metric};

use dom_base::Metric;
use pcep_codes::metrics;

/// The metric of a type, where a path can be measured by it.
pub(crate) fn metric_of_type(kind: u8) -> Option<Metric>
    ensures { result ≡ (if is_metric kind then Some (metric_of_type kind) else None) }
{
    match kind {
        metrics::IGP => Some(Metric::Igp),
        metrics::TE => Some(Metric::Te),
        metrics::HOPS => Some(Metric::Hops),
        _ => None,
    }
}

/// The type of a metric.
pub fn type_of_metric(metric: Metric) -> u8
    ensures { result ≡ type_of_metric metric }
{
    match metric {
        Metric::Igp => metrics::IGP,
        Metric::Te => metrics::TE,
        Metric::Hops => metrics::HOPS,
    }
}
