//! The status pages over HTTP.
ghost use Rattle.std.specs.Prelude.{◌≡◌, ◌↔◌, false, [], None, IfSome, IsTrue, MatchOption};
ghost use Rattle.bytes.specs.Unread.{IsChunkOf};
ghost use Rattle.http_server.specs.Connection.{history};
ghost use Rattle.http_server.specs.History.{IsDone};
ghost use Rattle.node_status.specs.Pages.{connection_of, has_stopped};

use crate::answering::Answering;
use crate::status::Status;
use crate::visitor::Visitor;
use indexmap::IndexMap;
use std::alloc::{AllocError, Global};
use std::hash::{BuildHasherDefault, FoldHasher, RandomState};

/// The status pages over HTTP/1.1, for connections that the caller holds and moves the bytes of. It does no IO.
///
/// `GET /` is a page that draws the node, `/status` its status as JSON, `/metrics` as metrics and `/tree` as a drawing.
/// `POST /stop` asks the node to stop. It is refused where the host that was asked for is neither an IP address nor
/// `localhost`, and where the request has an `Origin`: else a page of another site that a browser shows on the node's
/// network could stop the node, by a form or by a name that is made to resolve to the node's address.
#[derive(Drop)]
pub struct Pages {
    alloc: Global,
    keys: RandomState,
    /// The connections, by the numbers that the caller gave them.
    visitors: IndexMap<u64, Visitor, BuildHasherDefault<FoldHasher>>,
    is_asked: bool,
    is_stopped: bool,
}

impl Pages {
    /// No connection. Visitors choose the names of header fields, which are found by these keys.
    pub fn new(alloc: Global, keys: RandomState) -> Pages
        ensures { has_stopped result ≡ false }
    {
        Pages {
            alloc,
            keys,
            visitors: IndexMap::new(alloc),
            is_asked: false,
            is_stopped: false,
        }
    }

    /// Takes a connection, over which nothing has come yet, in place of one of the same number.
    pub fn open(&mut self, id: u64) -> Result<(), AllocError>
        ensures { has_stopped self.new ≡ has_stopped self.old }
    {
        let visitor = Visitor::new(self.alloc, self.keys);
        self.visitors.insert(id, visitor)?;
        Ok(())
    }

    /// Takes bytes that came over the connection. Their requests are answered by the next `serve`. A connection is
    /// dropped, and is through, where memory is refused, or where more than 128 KiB came that are not answered.
    pub fn receive(&mut self, id: u64, bytes: &[u8]) -> Result<(), AllocError>
        ensures { has_stopped self.new ≡ has_stopped self.old }
    {
        let Some(visitor) = self.visitors.get_mut(&id) else {
            return Ok(());
        };
        self.is_asked = true;
        let received = visitor.receive(bytes);
        if received != Ok(true) {
            self.close(id);
        }
        received.map(|_| ())
    }

    /// Notes that no more bytes come over the connection. What is answered is still to go out.
    pub fn end(&mut self, id: u64) -> Result<(), AllocError>
        ensures { has_stopped self.new ≡ has_stopped self.old }
    {
        let Some(visitor) = self.visitors.get_mut(&id) else {
            return Ok(());
        };
        self.is_asked = true;
        let ended = visitor.end();
        if ended.is_err() {
            self.close(id);
        }
        ended
    }

    /// Whether there may be requests that the last `serve` did not answer.
    pub fn is_asked(&self) -> bool {
        self.is_asked
    }

    /// Answers the requests that have come over all connections with this status, as far as their answers are taken:
    /// while 16 KiB wait over a connection, its next request is not answered. Where memory is refused, a connection is
    /// through.
    pub fn serve(&mut self, status: &Status) {
        let mut answering = Answering {
            alloc: self.alloc,
            status,
            is_stopped: self.is_stopped,
        };
        for (_, visitor) in &mut self.visitors {
            visitor.advance(&mut answering);
        }
        self.is_asked = false;
        self.is_stopped = answering.is_stopped;
    }

    /// Bytes that wait to go out over the connection. There may be more after these.
    pub fn answer(&self, id: u64) -> &[u8]
        ensures { MatchOption (connection_of self.now id)
            (result.now ≡ []) (λ c. IsChunkOf result.now (history c).pending) }
    {
        match self.visitors.get(&id) {
            Some(visitor) => visitor.answer(),
            None => &[],
        }
    }

    /// Notes that so many of the bytes of `answer` went out over the connection.
    pub fn answered(&mut self, id: u64, count: usize)
        ensures { has_stopped self.new ≡ has_stopped self.old }
    {
        if let Some(visitor) = self.visitors.get_mut(&id)
            && visitor.answered(count)
        {
            self.is_asked = true;
        }
    }

    /// Whether the connection is to be closed: nothing waits, and HTTP is done with it, or it is not known.
    pub fn is_through(&self, id: u64) -> bool
        ensures { IsTrue result ↔ IfSome (connection_of self.now id) (λ c. IsDone (history c)) }
    {
        match self.visitors.get(&id) {
            Some(visitor) => visitor.is_through(),
            None => true,
        }
    }

    /// Drops the connection.
    pub fn close(&mut self, id: u64)
        ensures gone { connection_of self.new id ≡ None }
        ensures stopped { has_stopped self.new ≡ has_stopped self.old }
    {
        self.visitors.swap_remove(&id);
    }

    /// How many connections there are.
    pub fn len(&self) -> usize {
        self.visitors.len()
    }

    /// Whether there is no connection.
    pub fn is_empty(&self) -> bool {
        self.visitors.is_empty()
    }

    /// Whether the node was asked to stop. The answer to that may still wait to go out.
    pub fn is_stopped(&self) -> bool
        ensures { result ≡ has_stopped self.now }
    {
        self.is_stopped
    }
}
