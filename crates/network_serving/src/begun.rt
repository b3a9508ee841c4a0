//! What came of a start.

/// What came of a start: the task was started, the start failed, or there was no memory. A task that is not started is dropped.
#[derive(Clone, Copy)]
pub enum Begun {
    Started,
    Failed,
    NoMemory,
}
