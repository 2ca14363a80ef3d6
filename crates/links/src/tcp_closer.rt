//! Closing a connection that another thread reads.
use std::alloc::Global;
use std::net::{Shutdown, TcpStream};
use std::sync::Arc;

/// A handle that closes a connection that another thread may be reading.
///
/// It ends a read that waits, so that closing waits for no stranger. A time limit of reads would do so too, but wake
/// each connection again and again.
#[derive(Drop)]
pub struct TcpCloser {
    stream: Arc<TcpStream, Global>,
}

impl TcpCloser {
    /// Creates a closer of `stream`.
    pub(crate) fn new(stream: Arc<TcpStream, Global>) -> TcpCloser {
        TcpCloser { stream }
    }

    /// Shuts the connection down in both directions, which ends a waiting read. Has no effect on a closed connection.
    pub fn close(&self) {
        let _ = self.stream.shutdown(Shutdown::Both);
    }

    /// Returns whether the reader and all other closers were dropped, so that only this one keeps the descriptor open.
    pub fn is_last(&self) -> bool {
        Arc::strong_count(&self.stream) == 1
    }
}
