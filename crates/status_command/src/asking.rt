//! Asks a node for its status.
ghost use Rattle.std.specs.Prelude.{◌≤◌, length, IfOk};

use crate::deadline::Deadline;
use crate::error::AskError;
use crate::response::{Progress, Response};
use http1::{BodySize, Client, Header, Limits, ReadError, WriteError};
use node_status::{Status, read_json};
use std::alloc::Global;
use std::io;
use std::io::{ErrorKind, Read, Write};
use std::net::{Net, SocketAddr, TcpListener, TcpStream};
use std::time::{Clock, Duration};

/// How many bytes are read at once.
const READ_ROOM: usize = 8_192;

/// Asks the node that answers at this address for its status. It has this long to answer.
pub fn ask<R>(rt: &R, alloc: Global, at: SocketAddr, timeout: Duration) -> Result<Status, AskError>
where
    R: Clock + Net<Listener = TcpListener, Stream = TcpStream>,
{
    let deadline = Deadline::after(rt, timeout)?;
    let stream = connect(rt, at, timeout)?;
    let client = send_request(rt, alloc, at, deadline, &stream)?;
    let mut response = Response::new(alloc, client);
    receive(rt, deadline, &stream, &mut response)?;
    Ok(read_json(alloc, response.body())?)
}

fn connect<R>(rt: &R, at: SocketAddr, timeout: Duration) -> Result<TcpStream, AskError>
where
    R: Net<Listener = TcpListener, Stream = TcpStream>,
{
    match TcpStream::connect_timeout(rt, &at, timeout) {
        Ok(stream) => Ok(stream),
        Err(error) => Err(AskError::of_connect(error)),
    }
}

/// Sends the request. Returns the client that awaits its response.
fn send_request<R: Clock>(
    rt: &R,
    alloc: Global,
    at: SocketAddr,
    deadline: Deadline,
    stream: &TcpStream,
) -> Result<Client, AskError> {
    let mut client = Client::new(Limits::default());
    let request = request(alloc, &mut client, at)?;
    let left = deadline.left(rt)?;
    match write_within(stream, request.as_slice(), left) {
        Ok(()) => Ok(client),
        Err(error) => Err(AskError::of_transfer(error)),
    }
}

/// The request for a status, to the node that answers at this address.
fn request(alloc: Global, client: &mut Client, at: SocketAddr) -> Result<Vec<u8>, AskError> {
    let address = SocketAddr::new(at.ip(), at.port());
    let host = format!(in alloc; "{address}")?;
    let mut request = Vec::new(alloc);
    match write_request(client, &mut request, host.as_bytes()) {
        Ok(()) => Ok(request),
        // The request is in order, so that only memory can be missing.
        Err(_) => Err(AskError::OutOfMemory),
    }
}

fn write_request(
    client: &mut Client,
    request: &mut Vec<u8>,
    host: &[u8],
) -> Result<(), WriteError> {
    let headers = [
        Header {
            name: b"host",
            value: host,
        },
        Header {
            name: b"connection",
            value: b"close",
        },
    ];
    client.write_request(request, b"GET", b"/status", &headers, BodySize::Empty)?;
    client.write_end(request, &[])
}

fn write_within(mut stream: &TcpStream, bytes: &[u8], left: Duration) -> io::Result<()> {
    stream.set_write_timeout(Some(left))?;
    stream.write_all(bytes)
}

/// Receives the response until it is whole.
fn receive<R: Clock>(
    rt: &R,
    deadline: Deadline,
    stream: &TcpStream,
    response: &mut Response,
) -> Result<(), AskError> {
    let mut bytes = [0; READ_ROOM];
    for _ in 0..u64::MAX {
        match read_within(stream, &mut bytes, deadline.left(rt)?) {
            Ok(0) => return response.end(),
            Ok(count) => {
                if response.receive(&bytes[..count])? == Progress::Whole {
                    return Ok(());
                }
            }
            Err(error) if error.kind() == ErrorKind::Interrupted => {}
            Err(error) => return Err(AskError::of_transfer(error)),
        }
    }
    Err(AskError::NotHttp(ReadError::UnexpectedEof))
}

fn read_within(mut stream: &TcpStream, bytes: &mut [u8], left: Duration) -> io::Result<usize>
    ensures { IfOk result (λ count. count ≤ length bytes.new) }
{
    stream.set_read_timeout(Some(left))?;
    stream.read(bytes)
}
