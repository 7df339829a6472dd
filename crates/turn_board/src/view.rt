use std::collections::LinkedList;

/// What a seat knows. No value of it is made.
pub(crate) struct View<W, E> {
    /// The world that the board was opened with; a spent view has none.
    pub world: Option<W>,
    /// The history that the seat last saw.
    pub seen: LinkedList<E>,
    /// The shorter of the two histories of the seat's last join. A join itself can't show that it
    /// begins the longer one; the load behind the join does.
    pub shorter_seen: LinkedList<E>,
    /// All shares add up to 128.
    pub share: u64,
    pub has_state: bool,
    /// How many of the seat's takes found the state out with another seat.
    pub misses: u64,
}
