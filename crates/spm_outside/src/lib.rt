//! The outside of the programs as traits: files (`Desk`), output (`Sink`), exchanges with registries (`Link`), and a server's
//! connections (`Door`, `Peer`).
//! A program is written over these, so that it runs over the system and, in a test, over objects in memory.
//!
//! - Each trait has a *state*: what an object tells of the files by their names, the bytes written, the book of
//!   replies, the calls made and the bytes that are left to read. `None` is a meaning that isn't told. A clause
//!   says what a call leaves of each, by its answer (`specs/Desk.antt`, `Sink.antt`, `Link.antt` and so on).
//! - Each counts its faults in its state. The count rises where a call answers `Failed`, and nowhere else
//!   (`specs/Faults.antt`), so a program whose count is as it was had no fault. The fault of a call is a
//!   [`CallFault`], under the name of its trait.
//! - `MemoryDesk`, `MemorySink` and `BookLink` tell all, and fail at the calls that their maker lists
//!   (`specs/Schedule.antt`, and `specs/Memory.antt` for what they hold). `FolderDesk`, `StdSink`, `WireLink`
//!   and `TcpDoor` are the system's, and tell nothing.
//! - `Book` is what registries answer, as fixed replies. `Gate` orders what actors do at once, in a test; `StepGate` holds
//!   one key until another is done.
//!
//! The layer above uses the traits' clauses alone, and states an outcome of the meanings that are told.
//!
//! Most proofs follow the definitions, which are by cases on the answer, with no file. The lemmas in `proofs/`
//! are on the map of a tree's entries, on the order in which a book's entries are looked up, on the bytes of
//! several puts and of several reads, and on marking the last call.
#![tactic(auto)]

mod book;
mod book_index;
mod book_link;
mod desk;
mod door;
mod fault;
mod files;
mod folder_desk;
mod gate;
mod link;
mod memory_desk;
mod memory_door;
mod memory_peer;
mod memory_sink;
mod peer;
mod schedule;
mod shared;
mod sink;
mod std_sink;
mod step_gate;
mod tcp_door;
mod wire_link;

pub use crate::book::{Authority, Book, Entry};
pub use crate::book_link::BookLink;
pub use crate::desk::{Desk, DeskFault};
pub use crate::door::{Door, DoorFault};
pub use crate::fault::CallFault;
pub use crate::folder_desk::FolderDesk;
pub use crate::gate::{Gate, OpenGate};
pub use crate::link::{Call, Link, LinkFault, exchange};
pub use crate::memory_desk::MemoryDesk;
pub use crate::memory_door::MemoryDoor;
pub use crate::memory_peer::MemoryPeer;
pub use crate::memory_sink::MemorySink;
pub use crate::peer::{Peer, PeerFault};
pub use crate::sink::{Sink, SinkFault, put_all};
pub use crate::std_sink::StdSink;
pub use crate::step_gate::StepGate;
pub use crate::tcp_door::{TcpDoor, TcpPeer};
pub use crate::wire_link::WireLink;
