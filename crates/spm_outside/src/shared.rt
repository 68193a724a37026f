// What may be moved into a thread, and looked at by several: nothing calls this, and that it is proved is what it shows.
use crate::book::Book;
use crate::book_link::BookLink;
use crate::memory_desk::MemoryDesk;
use crate::memory_door::MemoryDoor;
use crate::memory_peer::MemoryPeer;
use crate::memory_sink::MemorySink;
use crate::step_gate::StepGate;
use crate::tcp_door::{TcpDoor, TcpPeer};
use crate::wire_link::WireLink;

// Asks of a type that it may be moved and shared.
fn is_shared<T: Send + Sync>() {}

// Asks of a type that it may be moved.
fn is_moved<T: Send>() {}

// Books, the objects in memory, and the gate.
#[allow(dead_code)]
fn are_shared() {
    is_shared::<Book>();
    is_shared::<BookLink>();
    is_shared::<MemoryDesk>();
    is_shared::<MemorySink>();
    is_shared::<MemoryPeer>();
    is_shared::<MemoryDoor>();
    is_shared::<StepGate>();
}

// The links and peers of the network.
#[allow(dead_code)]
fn are_moved<R: Send>() {
    is_moved::<WireLink<R>>();
    is_moved::<TcpDoor<R>>();
    is_moved::<TcpPeer>();
}
