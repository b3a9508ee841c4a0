//! What is found in a table after a change, as laws.
ghost use Rattle.request_table.specs.Laws.{OpenLaw, CloseLaw, FullLaw};

/// The answers of a table after a request was opened.
pub fn finds_after_open<T>()
    ensures { OpenLaw T }
{}

/// The answers of a table after a request was closed.
pub fn finds_after_close<T>()
    ensures { CloseLaw T }
{}

/// A table is full where the test says so.
pub fn full_is_tested<T>()
    ensures { FullLaw T }
{}
