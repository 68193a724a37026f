// What the rule knows of each seat. No value of these types is made.
use std::collections::LinkedList;

// How far a seat has come. A turn has its ticket, and from when it is served the log, its base.
pub enum Stage<E, C> {
    // The lock's first seat, which has the ticket zero for putting the state into its slot.
    Opening,
    Idle,
    Waits(u64),
    Served(u64, LinkedList<E>),
    // Served, and its entry has been counted.
    Counted(u64, LinkedList<E>),
    // It was just met by a seat of these terms. What the first had seen and its numbers, and the same of the second.
    Met(C, LinkedList<E>, LinkedList<u32>, LinkedList<E>, LinkedList<u32>),
}

// What a seat knows, and how far it has come.
pub struct View<E, C> {
    // The terms of the state.
    pub terms: C,
    // A beginning of the log.
    pub seen: LinkedList<E>,
    // Numbers that no other seat has.
    pub numbers: LinkedList<u32>,
    // A length that the log has at least.
    pub told: u64,
    pub stage: Stage<E, C>,
}
