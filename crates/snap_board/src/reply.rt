//! Answers, and the responses that carry them.
ghost use Rattle.std.specs.Prelude.{◌≡◌, [], IfOk, IsOkAnd, OnOk};
ghost use Rattle.snap_board.specs.Pages.{HasContent};

use bytes::Bytes;
use http::{HeaderName, HeaderValue, StatusCode, header};
use http_server::Response;
use std::alloc::AllocError;

/// The page's content security policy: it may load its own style and script, and connect to its own server.
const POLICY: &str =
    "default-src 'none'; style-src 'self'; script-src 'self'; connect-src 'self'; img-src data:; base-uri 'none'; \
        form-action 'none'; frame-ancestors 'none'";

/// The kind of a content.
#[derive(Clone, Copy)]
pub(crate) enum ContentKind {
    Html,
    Css,
    Script,
    Json,
    Text,
    Metrics,
}

impl ContentKind {
    fn value(self) -> HeaderValue {
        match self {
            ContentKind::Html => HeaderValue::from_static("text/html; charset=utf-8"),
            ContentKind::Css => HeaderValue::from_static("text/css; charset=utf-8"),
            ContentKind::Script => HeaderValue::from_static("text/javascript; charset=utf-8"),
            ContentKind::Json => HeaderValue::from_static("application/json"),
            ContentKind::Text => HeaderValue::from_static("text/plain; charset=utf-8"),
            ContentKind::Metrics => {
                HeaderValue::from_static("text/plain; version=0.0.4; charset=utf-8")
            }
        }
    }
}

/// The answer to a request.
#[derive(Drop)]
pub(crate) struct PageAnswer {
    pub status: StatusCode,
    pub kind: ContentKind,
    pub content: Bytes,
}

impl PageAnswer {
    /// An answer with a constant content.
    pub(crate) fn fixed(status: StatusCode, kind: ContentKind, content: &'static [u8]) -> PageAnswer
        ensures { result.status ≡ status }
    {
        PageAnswer {
            status,
            kind,
            content: Bytes::from_static(content),
        }
    }

    /// An answer of some constant words.
    pub(crate) fn words(status: StatusCode, content: &'static [u8]) -> PageAnswer
        ensures { result.status ≡ status }
    {
        PageAnswer::fixed(status, ContentKind::Text, content)
    }

    /// An answer with a document of JSON, if there was memory for that.
    pub(crate) fn json(text: Result<Vec<u8>, AllocError>) -> Result<PageAnswer, AllocError>
        ensures { IfOk result (λ a. (a.status ≡ 200) × IsOkAnd text (λ made. a.content ≡ made.items)) }
    {
        PageAnswer::made(StatusCode::OK, ContentKind::Json, text?)
    }

    /// An answer with a text that was made for it.
    pub(crate) fn made(
        status: StatusCode,
        kind: ContentKind,
        text: Vec<u8>,
    ) -> Result<PageAnswer, AllocError>
        ensures { IfOk result (λ answer. (answer.status ≡ status) × (answer.content ≡ text.items)) }
    {
        let content = Bytes::from_vec(text)?;
        Ok(PageAnswer {
            status,
            kind,
            content,
        })
    }
}

/// Fills a response with an answer. The headers forbid browsers to cache it or to guess another kind. The page for
/// people and an answer to a refused method have headers of their own.
pub(crate) fn fill(response: &mut Response, answer: PageAnswer) -> Result<(), AllocError>
    requires { response.old.body.items ≡ [] }
    ensures { OnOk result (HasContent answer.status answer.content response.new) }
{
    response.status = answer.status;
    add_headers(response, answer.status, answer.kind)?;
    response.body.push(answer.content)
}

/// Adds the headers of an answer.
fn add_headers(
    response: &mut Response,
    status: StatusCode,
    kind: ContentKind,
) -> Result<(), AllocError>
    ensures { (response.new.status ≡ response.old.status) × (response.new.body ≡ response.old.body) }
{
    let mut is_whole = add(response, header::CONTENT_TYPE, kind.value());
    let no_store = HeaderValue::from_static("no-store");
    is_whole &= add(response, header::CACHE_CONTROL, no_store);
    let no_guess = HeaderValue::from_static("nosniff");
    is_whole &= add(response, header::X_CONTENT_TYPE_OPTIONS, no_guess);
    let policy = HeaderName::from_static("cross-origin-resource-policy");
    is_whole &= add(response, policy, HeaderValue::from_static("same-origin"));
    if let ContentKind::Html = kind {
        let policy = HeaderValue::from_static(POLICY);
        is_whole &= add(response, header::CONTENT_SECURITY_POLICY, policy);
        let policy = HeaderName::from_static("referrer-policy");
        is_whole &= add(response, policy, HeaderValue::from_static("no-referrer"));
    }
    if status == StatusCode::METHOD_NOT_ALLOWED {
        let methods = HeaderValue::from_static("GET, HEAD");
        is_whole &= add(response, header::ALLOW, methods);
    }
    if is_whole { Ok(()) } else { Err(AllocError) }
}

/// Adds a header. Returns whether memory was enough.
fn add(response: &mut Response, name: HeaderName, value: HeaderValue) -> bool
    ensures { (response.new.status ≡ response.old.status) × (response.new.body ≡ response.old.body) }
{
    response.add_header(name, value).is_ok()
}

/// Makes the response an empty 503, since memory ran out. It allocates nothing.
pub(crate) fn give_up(response: &mut Response)
    ensures { HasContent 503 [] response.new }
{
    response.clear();
    response.status = StatusCode::SERVICE_UNAVAILABLE;
}
