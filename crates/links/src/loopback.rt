//! TCP connections within this machine.
use crate::tcp_reader::TcpReader;
use crate::tcp_writer::TcpWriter;
use std::alloc::Global;
use std::io;
use std::net::{Ipv4Addr, Net, SocketAddr, SocketAddrV4, TcpListener, TcpStream};

/// Returns the address of a port of 127.0.0.1.
fn address(port: u16) -> SocketAddr {
    SocketAddr::V4(SocketAddrV4::new(Ipv4Addr::LOCALHOST, port))
}

/// Listens for connections on a port of 127.0.0.1. With port 0, the system chooses a free port.
pub fn listen<R: Net>(rt: &R, port: u16) -> io::Result<R::Listener> {
    rt.bind(address(port))
}

/// Waits for the next connection to `listener` and returns a reader of the bytes that the other end writes.
pub fn accept(alloc: Global, listener: &TcpListener) -> io::Result<TcpReader> {
    let (stream, _) = listener.accept()?;
    TcpReader::new(alloc, stream)
}

/// Connects to a port of 127.0.0.1 and returns a writer to the connection.
pub fn dial<R: Net<Stream = TcpStream>>(rt: &R, port: u16) -> io::Result<TcpWriter> {
    TcpWriter::new(rt.connect(address(port))?)
}
