//! Which requests get which pages.

ghost use Rattle.std.specs.Prelude.{◌≡◌};
ghost use Rattle.node_metrics.specs.Requests.{path_of, page_at, outcome_of, answer_to};

/// A page that is served.
#[derive(Clone, Copy, Debug, PartialEq, Eq)]
pub enum Page {
    /// `/metrics`: the report as Prometheus' text.
    Metrics,
    /// `/status`: the report as JSON.
    Status,
    /// `/healthz`: that the validator is alive.
    Health,
}

/// What comes of a request.
#[derive(Clone, Copy, Debug, PartialEq, Eq)]
pub enum Outcome {
    /// 200: a page.
    Page(Page),
    /// 400: no bytes that can follow make it a request.
    BadRequest,
    /// 404: there is no page at its path.
    NotFound,
    /// 405: there is one, but its method is neither GET nor HEAD.
    NotAllowed,
    /// 431: its head has more than 8,192 bytes, or more than 64 fields.
    TooLarge,
}

/// What a request is answered.
#[derive(Clone, Copy, Debug, PartialEq, Eq)]
pub struct Answer {
    pub outcome: Outcome,
    /// Whether the body is sent too: for all methods but HEAD.
    pub has_body: bool,
}

/// Returns the path of a request's target: what comes before a query.
fn path_of(target: &[u8]) -> &[u8]
    ensures { result.now ≡ path_of target.now }
{
    match target.iter().position(|byte| *byte == b'?') {
        Some(end) => &target[..end],
        None => target,
    }
}

/// Returns the page at a path, if there is one.
fn page_at(path: &[u8]) -> Option<Page>
    ensures { result ≡ page_at path.now }
{
    if path == b"/metrics".as_slice() {
        Some(Page::Metrics)
    } else if path == b"/status".as_slice() {
        Some(Page::Status)
    } else if path == b"/healthz".as_slice() {
        Some(Page::Health)
    } else {
        None
    }
}

/// Returns what comes of a request for this page.
fn outcome_of(page: Option<Page>, is_read: bool) -> Outcome
    ensures { result ≡ outcome_of page is_read }
{
    match page {
        None => Outcome::NotFound,
        Some(page) if is_read => Outcome::Page(page),
        Some(_) => Outcome::NotAllowed,
    }
}

/// Returns what a request with this method and target is answered.
pub fn answer_to(method: &[u8], target: &[u8]) -> Answer
    ensures { result ≡ answer_to method.now target.now }
{
    let is_get = method == b"GET".as_slice();
    let is_head = method == b"HEAD".as_slice();
    Answer {
        outcome: outcome_of(page_at(path_of(target)), is_get || is_head),
        has_body: !is_head,
    }
}
