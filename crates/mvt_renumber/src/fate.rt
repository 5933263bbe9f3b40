//! What becomes of an item of a list.

/// What becomes of an item of a list.
#[derive(Drop)]
pub enum Fate<T> {
    Stays,
    Goes,
    /// The other takes its place.
    Becomes(T),
}
