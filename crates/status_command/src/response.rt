//! The response of a node, as its bytes come in.
ghost use Rattle.std.specs.Prelude.{◌≤◌, length, IfOk};
ghost use Rattle.http1.specs.Client.{IsReadWithin};

use crate::error::AskError;
use http1::{Client, Event, ReadError};
use httparse::spans::{EMPTY_HEADER_SPAN, HeaderSpan, ResponseSpans};
use std::alloc::Global;

/// How many bytes a response has at most.
const MOST_BYTES: usize = 1_048_576;

/// How many fields the head of a response has at most.
const MOST_HEADERS: usize = 64;

/// How far a response has come.
#[derive(Clone, Copy, Debug, PartialEq, Eq)]
pub(crate) enum Progress {
    /// More of it is to come.
    Part,
    /// All of it is there.
    Whole,
}

/// The response of a node, as far as it has come.
#[derive(Drop)]
pub(crate) struct Response {
    client: Client,
    /// How many bytes may come still.
    room: usize,
    /// What came and is not read yet.
    unread: Vec<u8>,
    body: Vec<u8>,
}

impl Response {
    /// The response to the request that this client has written.
    pub(crate) fn new(alloc: Global, client: Client) -> Response {
        Response {
            client,
            room: MOST_BYTES,
            unread: Vec::new(alloc),
            body: Vec::new(alloc),
        }
    }

    /// Takes bytes that came.
    pub(crate) fn receive(&mut self, bytes: &[u8]) -> Result<Progress, AskError> {
        match self.room.checked_sub(bytes.len()) {
            Some(room) => self.room = room,
            None => return Err(AskError::TooLong),
        }
        self.unread.extend_from_slice(bytes)?;
        let (read, progress) = read_events(
            &mut self.client,
            self.unread.as_slice(),
            &mut self.body,
        )?;
        self.unread.drain(..read);
        Ok(progress)
    }

    /// Notes that no more bytes come. A response that has no length is whole then.
    pub(crate) fn end(&mut self) -> Result<(), AskError> {
        match self.client.read_eof()? {
            Event::End(_) => Ok(()),
            _ => Err(AskError::NotHttp(ReadError::UnexpectedEof)),
        }
    }

    /// The body of a response that is whole.
    pub(crate) fn body(&self) -> &[u8] {
        self.body.as_slice()
    }
}

/// Reads what came, and appends what is of the body. Returns how many bytes it read.
fn read_events(
    client: &mut Client,
    input: &[u8],
    body: &mut Vec<u8>,
) -> Result<(usize, Progress), AskError>
    ensures { IfOk result (λ r. r.0 ≤ length input.now) }
{
    let mut headers = [EMPTY_HEADER_SPAN; MOST_HEADERS];
    let mut rest = input;
    for _ in 0..u64::MAX {
        let read = client.read(rest, &mut headers)?;
        let step = take_event(read, rest, &headers, body)?;
        rest = &rest[read.consumed..];
        if let Some(progress) = step {
            return Ok((input.len() - rest.len(), progress));
        }
    }
    Ok((0, Progress::Part))
}

/// Takes what was read of this input. Returns how far the response has come, if nothing more is to be read now.
fn take_event(
    read: http1::Progress<ResponseSpans>,
    input: &[u8],
    headers: &[HeaderSpan],
    body: &mut Vec<u8>,
) -> Result<Option<Progress>, AskError>
    requires within { IsReadWithin input.now headers.now read }
    requires consumed { read.consumed ≤ length input.now }
{
    match read.event {
        Event::Head(head) if head.code != 200 => Err(AskError::Refused(head.code)),
        Event::Head(_) | Event::Informational(_) => Ok(None),
        Event::Data(piece) => {
            body.extend_from_slice(piece.of(input))?;
            Ok(None)
        }
        Event::End(_) => Ok(Some(Progress::Whole)),
        Event::NeedMore => Ok(Some(Progress::Part)),
        Event::Paused | Event::Upgraded | Event::Closed => Err(AskError::NotHttp(
            ReadError::UnexpectedResponse,
        )),
    }
}
