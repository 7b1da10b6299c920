// What is handed over.

/// What is handed to a worker and comes back served.
pub trait Errand: Drop {
    /// What may be handed over.
    ghost ready: { Self → Type 0 };

    /// What may come back, of what was handed over.
    ghost served: { Self → Self → Type 0 };
}
