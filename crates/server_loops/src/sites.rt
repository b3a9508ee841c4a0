//! Where desks, benches and charts stand.

/// What stands somewhere, as a desk at a lock. No call moves it.
pub trait Sited {
    ghost Site: { Type 0 };

    ghost is_at: { Self → Self.Site → Type 0 };
}
