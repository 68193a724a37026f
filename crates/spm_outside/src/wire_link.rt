ghost use Rattle.std.specs.Prelude.{◌≡◌, Err, None, ⊤};
ghost use Rattle.spm_outside.specs.Faults.{FaultsAfter};

use crate::book::Authority;
use crate::link::{Link, LinkFault};
use std::io;
use std::io::{ErrorKind, Read, Write};
use std::net::{Net, TcpStream, ToSocketAddrs};
use std::time::Duration;

/// How many seconds a connection may take to be made, and each write and read to go on.
const PATIENCE: u64 = 60;

/// A link over the network: one TCP connection an exchange. It tells nothing.
///
/// An authority's host is a name, which is looked up anew for each exchange, or an address. Where the other side is silent for longer than
/// 60 seconds, in being connected to, in a write or in a read, the link has failed.
#[derive(Drop)]
pub struct WireLink<R> {
    runtime: R,
    stream: Option<TcpStream>,
    faults: u64,
}

// A host without the brackets that stand round an IPv6 address in a URL (RFC 3986, section 3.2.2).
fn without_brackets(host: &str) -> &str {
    let inner = host.strip_prefix('[');
    inner
        .and_then(|rest| rest.strip_suffix(']'))
        .unwrap_or(host)
}

// Writes the request to a new connection.
fn send(mut stream: TcpStream, request: &[u8]) -> io::Result<TcpStream> {
    stream.set_read_timeout(Some(Duration::from_secs(PATIENCE)))?;
    stream.set_write_timeout(Some(Duration::from_secs(PATIENCE)))?;
    stream.write_all(request)?;
    Ok(stream)
}

impl<R: Net<Stream = TcpStream>> WireLink<R> {
    /// A link over the network of the runtime, with no connection yet.
    pub fn new(runtime: R) -> WireLink<R>
        ensures { (⟦<WireLink<R> as Link>⟧.state result).faults ≡ 0 }
    {
        WireLink {
            runtime,
            stream: None,
            faults: 0,
        }
    }

    // A connection to the first address of the authority that takes one, with the request written to it.
    fn connect(&self, to: &Authority, request: &[u8]) -> io::Result<TcpStream> {
        let host = without_brackets(to.host.as_str());
        let mut last = io::Error::from(ErrorKind::NotFound);
        for address in (host, to.port).to_socket_addrs(&self.runtime)? {
            match TcpStream::connect_timeout(
                &self.runtime,
                &address,
                Duration::from_secs(PATIENCE),
            ) {
                Ok(stream) => return send(stream, request),
                Err(e) => last = e,
            }
        }
        Err(last)
    }

    // What the system's error is here. It counts a fault unless memory is wanting.
    fn fault_of(&mut self, e: io::Error) -> LinkFault
        ensures { FaultsAfter {T = ⊤} (Err result) self.old.faults self.new.faults }
    {
        match e.kind() {
            ErrorKind::OutOfMemory => LinkFault::Memory,
            _ => {
                self.stream = None;
                self.faults = self.faults.saturating_add(1);
                LinkFault::Failed
            }
        }
    }
}

impl<R: Net<Stream = TcpStream>> Link for WireLink<R> {
    ghost state = { λ link. record { book = None; calls = None; taken = None; rest = None; faults = link.faults } };

    ghost tells_all = { λ link told. (told, told, told) };

    fn open(&mut self, to: &Authority, request: &[u8]) -> Result<(), LinkFault> {
        match self.connect(to, request) {
            Ok(stream) => {
                self.stream = Some(stream);
                Ok(())
            }
            Err(e) => Err(self.fault_of(e)),
        }
    }

    fn read(&mut self, piece: &mut [u8]) -> Result<usize, LinkFault> {
        let Some(stream) = &mut self.stream else {
            return Ok(0);
        };
        match stream.read(piece) {
            Ok(count) => Ok(count),
            Err(e) => Err(self.fault_of(e)),
        }
    }
}
