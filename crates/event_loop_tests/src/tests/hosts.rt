//! Listeners of peers that are no nodes.
use crate::tests::book::any_port;
use anyhow::Result;
use mio::net::{TcpListener, TcpStream};
use std::io::{ErrorKind, Read};
use std::net::{Net, SocketAddr};

/// Listens at a free port. Connections that are made wait there, and take what the system keeps.
pub(crate) fn listen<R: Net>(rt: &R) -> Result<TcpListener> {
    Ok(TcpListener::bind(rt, any_port()?)?)
}

/// An address where nobody listens.
pub(crate) fn closed_port<R: Net>(rt: &R) -> Result<SocketAddr> {
    Ok(listen(rt)?.local_addr()?)
}

/// Three addresses where nobody listens.
pub(crate) fn closed_ports<R: Net>(rt: &R) -> Result<[SocketAddr; 3]> {
    let (first, second, third) = (listen(rt)?, listen(rt)?, listen(rt)?);
    Ok([
        first.local_addr()?,
        second.local_addr()?,
        third.local_addr()?,
    ])
}

/// Whether the other end has closed the connection.
pub(crate) fn is_closed(stream: &mut TcpStream) -> bool {
    let mut bytes = [0; 16];
    match stream.read(&mut bytes) {
        Ok(count) => count == 0,
        Err(error) => error.kind() != ErrorKind::WouldBlock,
    }
}
