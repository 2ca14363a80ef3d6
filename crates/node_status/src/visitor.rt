//! One connection to the status pages.
ghost use Rattle.std.specs.Prelude.{◌↔◌, IsTrue};
ghost use Rattle.bytes.specs.Unread.{IsChunkOf};
ghost use Rattle.http_server.specs.Connection.{history};
ghost use Rattle.http_server.specs.History.{IsDone};

use http_server::{Config, Connection, Service, State};
use std::alloc::{AllocError, Global};
use std::hash::RandomState;

/// A longer body of a request is refused. No request needs one.
const MAX_BODY: usize = 4 * 1_024;

/// While more bytes of answers than this wait, no request is answered.
const MAX_PENDING: usize = 16 * 1_024;

/// The least room that bytes are taken into.
const READ_SIZE: usize = 2 * 1_024;

/// How many bytes may come between two calls of `advance`, and while its answers are not taken.
const MAX_HELD: usize = 128 * 1_024;

/// One connection to the status pages.
#[derive(Drop)]
pub(crate) struct Visitor {
    connection: Connection,
    /// How many bytes came since it last had all of its requests answered that were whole.
    held: usize,
}

impl Visitor {
    pub(crate) fn new(alloc: Global, keys: RandomState) -> Visitor {
        let mut config = Config::default();
        config.max_body_len = MAX_BODY;
        config.max_pending = MAX_PENDING;
        config.read_size = READ_SIZE;
        Visitor {
            connection: Connection::new(alloc, keys, config),
            held: 0,
        }
    }

    /// Takes bytes that came, if HTTP is not done with the connection. Returns whether there were not too many.
    pub(crate) fn receive(&mut self, bytes: &[u8]) -> Result<bool, AllocError> {
        if self.connection.state() != State::Open {
            return Ok(true);
        }
        self.held = self.held.saturating_add(bytes.len());
        if self.held > MAX_HELD {
            return Ok(false);
        }
        let mut rest = bytes;
        for _ in 0..bytes.len() {
            if rest.is_empty() {
                break;
            }
            self.read_from(&mut rest)?;
        }
        Ok(true)
    }

    /// Notes that no more bytes come.
    pub(crate) fn end(&mut self) -> Result<(), AllocError> {
        let mut nothing: &[u8] = &[];
        self.read_from(&mut nothing)
    }

    fn read_from(&mut self, bytes: &mut &[u8]) -> Result<(), AllocError> {
        match self.connection.read_from(bytes) {
            Ok(_) => Ok(()),
            Err(_) => Err(AllocError),
        }
    }

    /// Answers the requests that have come, until too much waits to go out.
    pub(crate) fn advance<S: Service>(&mut self, service: &mut S) {
        self.connection.advance(service);
        if self.connection.wants_read() {
            self.held = 0;
        }
    }

    /// Bytes that wait to go out.
    pub(crate) fn answer(&self) -> &[u8]
        ensures { IsChunkOf result.now (history self.now.connection).pending }
    {
        self.connection.output()
    }

    /// Notes that so many of the bytes of `answer` went out. Returns whether requests may be answered now that had to
    /// wait for that.
    pub(crate) fn answered(&mut self, count: usize) -> bool {
        let was_paused = !self.connection.wants_read();
        let count = count.min(self.connection.output().len());
        self.connection.sent(count);
        was_paused && self.connection.wants_read()
    }

    /// Whether nothing waits to go out, and HTTP is done with the connection.
    pub(crate) fn is_through(&self) -> bool
        ensures { IsTrue result ↔ IsDone (history self.now.connection) }
    {
        self.connection.is_done()
    }
}
