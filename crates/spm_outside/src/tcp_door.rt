ghost use Rattle.std.specs.Prelude.{◌≡◌, Err, None, ⊤};
ghost use Rattle.spm_outside.specs.Faults.{FaultsAfter};

use crate::door::{Door, DoorFault};
use crate::peer::{Peer, PeerFault};
use std::io;
use std::io::{ErrorKind, Read, Write};
use std::net::{Ipv4Addr, Net, SocketAddr, SocketAddrV4, TcpListener, TcpStream};
use std::time::Duration;

/// How many seconds a read or a write of a peer may take to go on.
const PATIENCE: u64 = 60;

/// A port of this machine, at the address 127.0.0.1 alone. It tells nothing.
#[derive(Drop)]
pub struct TcpDoor<R> {
    runtime: R,
    listener: Option<TcpListener>,
    faults: u64,
}

/// A connection that a [`TcpDoor`] took. It tells nothing. Where the other side is silent for longer than 60 seconds, the peer has failed.
#[derive(Drop)]
pub struct TcpPeer {
    stream: TcpStream,
    faults: u64,
}

impl<R: Net<Stream = TcpStream, Listener = TcpListener>> TcpDoor<R> {
    /// A door over the network of the runtime, which listens nowhere yet.
    pub fn new(runtime: R) -> TcpDoor<R>
        ensures { (⟦<TcpDoor<R> as Door>⟧.state result).faults ≡ 0 }
    {
        TcpDoor {
            runtime,
            listener: None,
            faults: 0,
        }
    }

    // The next connection.
    fn accept(&self) -> io::Result<TcpStream> {
        let Some(listener) = &self.listener else {
            return Err(io::Error::from(ErrorKind::NotConnected));
        };
        let (stream, _) = listener.accept()?;
        stream.set_read_timeout(Some(Duration::from_secs(PATIENCE)))?;
        stream.set_write_timeout(Some(Duration::from_secs(PATIENCE)))?;
        Ok(stream)
    }

    // What the system's error is here. It counts a fault unless memory is wanting.
    fn fault_of(&mut self, e: io::Error) -> DoorFault
        ensures { FaultsAfter {T = ⊤} (Err result) self.old.faults self.new.faults }
    {
        match e.kind() {
            ErrorKind::OutOfMemory => DoorFault::Memory,
            _ => {
                self.faults = self.faults.saturating_add(1);
                DoorFault::Failed
            }
        }
    }
}

impl<R: Net<Stream = TcpStream, Listener = TcpListener>> Door for TcpDoor<R> {
    type Peer = TcpPeer;

    ghost state = { λ door. record { served = None; faults = door.faults } };

    fn bind(&mut self, port: u16) -> Result<(), DoorFault> {
        let address = SocketAddr::V4(SocketAddrV4::new(Ipv4Addr::LOCALHOST, port));
        match TcpListener::bind(&self.runtime, address) {
            Ok(listener) => {
                self.listener = Some(listener);
                Ok(())
            }
            Err(e) => Err(self.fault_of(e)),
        }
    }

    fn next(&mut self) -> Result<TcpPeer, DoorFault> {
        match self.accept() {
            Ok(stream) => Ok(TcpPeer { stream, faults: 0 }),
            Err(e) => Err(self.fault_of(e)),
        }
    }

    fn done(&mut self, _peer: TcpPeer) -> Result<(), DoorFault> {
        Ok(())
    }
}

impl TcpPeer {
    // What the system's error is here. It counts a fault unless memory is wanting.
    fn fault_of(&mut self, e: io::Error) -> PeerFault
        ensures { FaultsAfter {T = ⊤} (Err result) self.old.faults self.new.faults }
    {
        match e.kind() {
            ErrorKind::OutOfMemory => PeerFault::Memory,
            _ => self.fail(),
        }
    }

    // Counts a fault.
    fn fail(&mut self) -> PeerFault
        ensures { FaultsAfter {T = ⊤} (Err result) self.old.faults self.new.faults }
    {
        self.faults = self.faults.saturating_add(1);
        PeerFault::Failed
    }
}

impl Peer for TcpPeer {
    ghost state = { λ peer. record { taken = None; rest = None; written = None; faults = peer.faults } };

    fn read(&mut self, piece: &mut [u8]) -> Result<usize, PeerFault> {
        match self.stream.read(piece) {
            Ok(count) => Ok(count),
            Err(e) => Err(self.fault_of(e)),
        }
    }

    fn put(&mut self, piece: &[u8]) -> Result<usize, PeerFault> {
        match self.stream.write(piece) {
            Ok(0) if !piece.is_empty() => Err(self.fail()),
            Ok(count) => Ok(count),
            Err(e) => Err(self.fault_of(e)),
        }
    }
}
