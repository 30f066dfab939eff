//! What a pipe between two threads of a run carries.

/// What a pipe carries between the threads of a run: an item, or a notice that no more items follow.
#[derive(Debug, Drop)]
pub enum Carried<T> {
    /// An item.
    Item(T),
    /// No more items follow.
    Stop,
}
