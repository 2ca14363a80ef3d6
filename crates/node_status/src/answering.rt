//! The answers to requests.
ghost use Rattle.std.specs.Prelude.{◌≡◌, ◌⊎◌, codes, IsTrue};
ghost use Rattle.http.specs.Request.{head_of};

use crate::dot::write_dot;
use crate::json::write_json;
use crate::metrics::write_metrics;
use crate::page::PAGE;
use crate::status::Status;
use crate::verdict::{Allowed, Verdict, View, judge};
use bytes::{BufMut, Bytes};
use http::{HeaderValue, Request, StatusCode, header};
use http_server::{Response, Service};
use std::alloc::{AllocError, Global};

/// Answers requests with what a node said of itself.
#[derive(Drop)]
pub(crate) struct Answering<'a> {
    pub(crate) alloc: Global,
    pub(crate) status: &'a Status,
    /// Whether the node was asked to stop.
    pub(crate) is_stopped: bool,
}

impl Service for Answering<'_> {
    // Only a `POST` has the node stop, and nothing takes that back. What a response says is left open.
    ghost answers = { λ old request response new. (IsTrue old.is_stopped → IsTrue new.is_stopped)
        × (IsTrue new.is_stopped → (IsTrue old.is_stopped ⊎ ((head_of request).method ≡ codes "POST"))) };

    fn call(
        &mut self,
        request: &Request<Bytes>,
        response: &mut Response,
    ) -> Result<(), AllocError> {
        let verdict = judge(request);
        self.answer(verdict, response)?;
        if let Verdict::Stop = verdict {
            self.is_stopped = true;
        }
        Ok(())
    }
}

impl Answering<'_> {
    fn answer(&self, verdict: Verdict, response: &mut Response) -> Result<(), AllocError> {
        let no_store = HeaderValue::from_static("no-store");
        response.add_header(header::CACHE_CONTROL, no_store)?;
        match verdict {
            Verdict::Show(view) => self.show(view, response),
            Verdict::Stop => say(response, StatusCode::OK, "stopping\n"),
            Verdict::Forbidden => say(response, StatusCode::FORBIDDEN, FORBIDDEN),
            Verdict::NotFound => say(response, StatusCode::NOT_FOUND, "there is no such page\n"),
            Verdict::NotAllowed(allowed) => refuse_method(response, allowed),
        }
    }

    fn show(&self, view: View, response: &mut Response) -> Result<(), AllocError> {
        let mut text = String::new(self.alloc);
        match view {
            View::Page => text.push_str(PAGE)?,
            View::Status => write_json(self.status, &mut text)?,
            View::Metrics => write_metrics(self.status, &mut text)?,
            View::Tree => write_dot(self.status, &mut text)?,
        }
        response.add_header(header::CONTENT_TYPE, view.content_type())?;
        response.body.put_slice(text.as_bytes())
    }
}

const FORBIDDEN: &str =
    "a node is stopped by its address or localhost, and by no page of another site\n";

/// Answers with a line of text.
fn say(response: &mut Response, status: StatusCode, line: &str) -> Result<(), AllocError> {
    let plain = HeaderValue::from_static("text/plain; charset=utf-8");
    response.status = status;
    response.add_header(header::CONTENT_TYPE, plain)?;
    response.body.put_slice(line.as_bytes())
}

/// Answers that the path has other methods.
fn refuse_method(response: &mut Response, allowed: Allowed) -> Result<(), AllocError> {
    response.add_header(header::ALLOW, allowed.methods())?;
    say(
        response,
        StatusCode::METHOD_NOT_ALLOWED,
        "there is no such method here\n",
    )
}
