//! The board: answers HTTP requests.
ghost use Rattle.std.specs.Prelude.{◌≡◌, Some, IfOk, if◌then◌else◌};
ghost use Rattle.std.specs.List.{list_all, list_any};
ghost use Rattle.snap_board.specs.Pages as pages;
ghost use Rattle.snap_frame.specs.declared.request.Request.TheVariants as requests;

use crate::facts::FactSource;
use crate::figures::figures_document;
use crate::home::HOME;
use crate::metrics::metrics_text;
use crate::page::Page;
use crate::reply::{ContentKind, PageAnswer, fill, give_up};
use crate::script::SCRIPT;
use crate::style::STYLE;
use bytes::Bytes;
use http::{HeaderValue, Request, StatusCode, header};
use http_server::Response;
use httpdate::HttpDate;
use snap_frame::{Reply, SegmentStatus};
use snap_order::{health_document, scan_document, status_document};
use snap_session::Service;
use std::alloc::{AllocError, Global};

/// The content of the answer for an unknown path.
const PATHS: &[u8] =
    b"Nothing is here. There is: / /metrics /health /livez /readyz /scan /status /stats /history\n";

/// The content of an answer without a fault.
const WELL: &[u8] = b"ok\n";

/// Answers HTTP requests about a server.
///
/// It asks the service for scans and statuses alone, with the key 0, and at most once per request.
/// If memory for an answer runs out, the answer is 503 without content, which allocates nothing.
#[derive(Drop)]
pub struct Board<S: Service + Drop, X: FactSource + Drop> {
    pub alloc: Global,
    pub service: S,
    pub surroundings: X,
}

impl<S: Service + Drop, X: FactSource + Drop> Board<S, X> {
    /// A board of this service, and of the facts from `surroundings`.
    pub fn new(alloc: Global, service: S, surroundings: X) -> Board<S, X>
        ensures service { result.service ≡ service }
        ensures surroundings { result.surroundings ≡ surroundings }
    {
        Board {
            alloc,
            service,
            surroundings,
        }
    }

    /// Answers a request.
    fn answer(&mut self, request: &Request<Bytes>) -> Result<PageAnswer, AllocError>
        ensures answers { IfOk result (λ a.
            pages.Answers S.gives self.old.service request.now a.status a.content self.new.service) }
        ensures asks { pages.MayAskFor S.gives self.old.service request.now self.new.service }
        ensures same { self.new.surroundings ≡ self.old.surroundings }
    {
        if !is_read(request.method().as_str()) {
            let words = b"Only GET and HEAD are answered.\n";
            return Ok(PageAnswer::words(StatusCode::METHOD_NOT_ALLOWED, words));
        }
        match Page::of(request.uri().path()) {
            Some(page) => self.show(page),
            None => Ok(PageAnswer::words(StatusCode::NOT_FOUND, PATHS)),
        }
    }

    /// Answers with a page.
    fn show(&mut self, page: Page) -> Result<PageAnswer, AllocError>
        ensures answers { IfOk result (λ a.
            pages.AnswersPage S.gives page self.old.service a.status a.content self.new.service) }
        ensures asks { pages.MayAsk S.gives (pages.asked_of page) self.old.service self.new.service }
        ensures same { self.new.surroundings ≡ self.old.surroundings }
    {
        match page {
            Page::Home | Page::Style | Page::Script | Page::Live => Ok(constant(page)),
            Page::History => PageAnswer::json(self.surroundings.history().document(self.alloc)),
            Page::Scan => match self.service.answer(&snap_frame::Request::Scan, 0) {
                Some(Reply::Snapshot(values)) => {
                    PageAnswer::json(scan_document(self.alloc, &values))
                }
                reply => refuse(self.alloc, &reply),
            },
            Page::Metrics | Page::Health | Page::Ready | Page::Status | Page::Stats => {
                match self.service.answer(&snap_frame::Request::Status, 0) {
                    Some(Reply::Status(statuses)) => self.show_status(page, &statuses),
                    reply => refuse(self.alloc, &reply),
                }
            }
        }
    }

    /// Answers with a page that needs the segments' statuses, which are these.
    fn show_status(&self, page: Page, statuses: &[SegmentStatus]) -> Result<PageAnswer, AllocError>
        requires { pages.asked_of page ≡ Some requests.Status }
        ensures { IfOk result (λ a. pages.ShowsStatuses page statuses.now a.status a.content) }
    {
        match page {
            Page::Health => {
                let text = health_document(self.alloc, statuses)?;
                let status = if is_any_fenced(statuses) {
                    StatusCode::SERVICE_UNAVAILABLE
                } else {
                    StatusCode::OK
                };
                PageAnswer::made(status, ContentKind::Json, text)
            }
            Page::Ready if are_all_fenced(statuses) => {
                let words = b"each segment is fenced\n";
                Ok(PageAnswer::words(StatusCode::SERVICE_UNAVAILABLE, words))
            }
            Page::Ready => Ok(PageAnswer::words(StatusCode::OK, WELL)),
            Page::Status => PageAnswer::json(status_document(self.alloc, statuses)),
            Page::Metrics | Page::Stats => self.tell_metrics(page, statuses),
            _ => unreachable!(),
        }
    }

    /// Answers with the metrics: as a JSON document for `/stats`, else for Prometheus.
    fn tell_metrics(&self, page: Page, statuses: &[SegmentStatus]) -> Result<PageAnswer, AllocError>
        ensures { IfOk result (λ a. a.status ≡ 200) }
    {
        let facts = self.surroundings.facts(self.alloc, statuses)?;
        if let Page::Stats = page {
            return PageAnswer::json(figures_document(self.alloc, &facts));
        }
        let text = metrics_text(self.alloc, &facts, &self.surroundings.usage())?;
        PageAnswer::made(StatusCode::OK, ContentKind::Metrics, text.into_bytes())
    }

    /// The date, in the format of HTTP. `None` if the clock can't be read, or memory runs out.
    fn date(&self) -> Option<HeaderValue> {
        let seconds = self.surroundings.now_millis()? / 1_000;
        let date = HttpDate::from_unix_secs(seconds).ok()?;
        HeaderValue::from_bytes(self.alloc, &date.to_bytes()).ok()
    }
}

/// Answers with a page that is always the same.
fn constant(page: Page) -> PageAnswer
    ensures { result.status ≡ 200 }
{
    match page {
        Page::Home => PageAnswer::fixed(StatusCode::OK, ContentKind::Html, HOME),
        Page::Style => PageAnswer::fixed(StatusCode::OK, ContentKind::Css, STYLE),
        Page::Script => PageAnswer::fixed(StatusCode::OK, ContentKind::Script, SCRIPT),
        _ => PageAnswer::words(StatusCode::OK, WELL),
    }
}

fn is_read(method: &str) -> bool
    ensures { result ≡ pages.is_read method.now }
{
    method == "GET" || method == "HEAD"
}

fn is_any_fenced(statuses: &[SegmentStatus]) -> bool
    ensures { result ≡ list_any (λ s. s.is_fenced) statuses.now }
{
    statuses.iter().any(|status| status.is_fenced)
}

fn are_all_fenced(statuses: &[SegmentStatus]) -> bool
    ensures { result ≡ list_all (λ s. s.is_fenced) statuses.now }
{
    statuses.iter().all(|status| status.is_fenced)
}

/// Answers with the service's refusal, or that it gave no reply.
fn refuse(alloc: Global, reply: &Option<Reply>) -> Result<PageAnswer, AllocError>
    ensures { IfOk result (λ a. a.status ≡ 503) }
{
    let status = StatusCode::SERVICE_UNAVAILABLE;
    let Some(Reply::Refused { why, .. }) = reply else {
        return Ok(PageAnswer::words(status, b"no answer\n"));
    };
    let line = format!(in alloc; "{why}\n")?;
    PageAnswer::made(status, ContentKind::Text, line.into_bytes())
}

impl<S: Service + Drop, X: FactSource + Drop> http_server::Service for Board<S, X> {
    ghost use Rattle.std.specs.Prelude.{◌≡◌};
    ghost use Rattle.snap_board.specs.Pages.{Answers};

    /// The query and the body of a request are ignored.
    ghost answers = { λ old request response new.
        Answers S.gives old.service request response.status response.body.items new.service
        × (new.surroundings ≡ old.surroundings) };

    fn call(
        &mut self,
        request: &Request<Bytes>,
        response: &mut Response,
    ) -> Result<(), AllocError> {
        if let Some(date) = self.date() {
            let _ = response.add_header(header::DATE, date);
        }
        let is_filled = match self.answer(request) {
            Ok(answer) => fill(response, answer).is_ok(),
            Err(AllocError) => false,
        };
        if !is_filled {
            give_up(response);
        }
        Ok(())
    }
}
