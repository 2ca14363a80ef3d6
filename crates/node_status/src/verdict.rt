//! What is to be done with a request.
ghost use Rattle.std.specs.Prelude.{◌≡◌, codes};
ghost use Rattle.http.specs.Request.{head_of};

use crate::own_host::is_own_host;
use bytes::Bytes;
use http::{HeaderValue, Request};

/// What is shown of a node.
#[derive(Clone, Copy)]
pub(crate) enum View {
    Page,
    Status,
    Metrics,
    Tree,
}

impl View {
    /// What is shown at this path, if anything is.
    fn at(path: &str) -> Option<View> {
        match path {
            "/" => Some(View::Page),
            "/status" => Some(View::Status),
            "/metrics" => Some(View::Metrics),
            "/tree" => Some(View::Tree),
            _ => None,
        }
    }

    pub(crate) fn content_type(self) -> HeaderValue {
        match self {
            View::Page => HeaderValue::from_static("text/html; charset=utf-8"),
            View::Status => HeaderValue::from_static("application/json"),
            View::Metrics => HeaderValue::from_static("text/plain; version=0.0.4; charset=utf-8"),
            View::Tree => HeaderValue::from_static("text/vnd.graphviz"),
        }
    }
}

/// The methods that a path has.
#[derive(Clone, Copy)]
pub(crate) enum Allowed {
    Get,
    Post,
}

impl Allowed {
    /// The value of `allow`.
    pub(crate) fn methods(self) -> HeaderValue {
        match self {
            Allowed::Get => HeaderValue::from_static("GET, HEAD"),
            Allowed::Post => HeaderValue::from_static("POST"),
        }
    }
}

/// What is to be done with a request.
#[derive(Clone, Copy)]
pub(crate) enum Verdict {
    Show(View),
    Stop,
    /// It asks the node to stop, and may be of a page of another site.
    Forbidden,
    NotFound,
    NotAllowed(Allowed),
}

/// Judges a request by its method, its path, and for `/stop` by where it comes from.
pub(crate) fn judge(request: &Request<Bytes>) -> Verdict
    ensures stop { result ≡ Verdict.Stop → (head_of request.now).method ≡ codes "POST" }
{
    let path = request.uri().path();
    if path == "/stop" {
        return judge_stop(request);
    }
    let Some(view) = View::at(path) else {
        return Verdict::NotFound;
    };
    let method = request.method().as_str();
    if method == "GET" || method == "HEAD" {
        Verdict::Show(view)
    } else {
        Verdict::NotAllowed(Allowed::Get)
    }
}

/// Judges a request of `/stop`.
fn judge_stop(request: &Request<Bytes>) -> Verdict
    ensures stop { result ≡ Verdict.Stop → (head_of request.now).method ≡ codes "POST" }
{
    if request.method().as_str() != "POST" {
        Verdict::NotAllowed(Allowed::Post)
    } else if is_of_own_site(request) {
        Verdict::Stop
    } else {
        Verdict::Forbidden
    }
}

/// Whether no page of another site can have sent the request: a browser names such a page's site in `origin`, and a
/// page whose own name was made to resolve to this node has that name as its host.
fn is_of_own_site(request: &Request<Bytes>) -> bool {
    let headers = request.headers();
    if headers.contains_key("origin") {
        return false;
    }
    if let Some(host) = request.uri().host()
        && !is_own_host(host.as_bytes())
    {
        return false;
    }
    match headers.get("host") {
        Some(host) => is_own_host(host.as_bytes()),
        None => false,
    }
}
