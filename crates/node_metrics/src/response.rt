//! What an answer is as bytes.

ghost use Rattle.std.specs.Prelude.{◌≡◌, Some, IfOk};
ghost use Rattle.std.specs.String.{string_bytes};
ghost use Rattle.node_metrics.specs.Responses.{code_of, reason_of, type_of, allowed_line, status_line, content_lines, last_lines, part_of, response_text, page_text, body_of, response_for};

use crate::page::{Answer, Outcome, Page};
use crate::report::Report;
use crate::status_json::StatusJson;
use crate::text::MetricsText;
use std::alloc::{AllocError, Global};
use std::fmt;

impl Outcome {
    /// Returns the code of the response.
    pub fn code(self) -> u16
        ensures { result ≡ code_of self }
    {
        match self {
            Outcome::Page(_) => 200,
            Outcome::BadRequest => 400,
            Outcome::NotFound => 404,
            Outcome::NotAllowed => 405,
            Outcome::TooLarge => 431,
        }
    }
}

impl fmt::Display for Outcome {
    ghost output = { λ outcome. Some (reason_of outcome) };

    fn fmt<W: fmt::Write>(&self, f: &mut fmt::Formatter<W>) -> fmt::Result {
        f.write_str(match self {
            Outcome::Page(_) => "OK",
            Outcome::BadRequest => "Bad Request",
            Outcome::NotFound => "Not Found",
            Outcome::NotAllowed => "Method Not Allowed",
            Outcome::TooLarge => "Request Header Fields Too Large",
        })
    }
}

/// The media type of a body.
#[derive(Clone, Copy)]
struct MediaType(Outcome);

impl fmt::Display for MediaType {
    ghost output = { λ media. Some (type_of media.0) };

    fn fmt<W: fmt::Write>(&self, f: &mut fmt::Formatter<W>) -> fmt::Result {
        f.write_str(match self.0 {
            Outcome::Page(Page::Metrics) => "text/plain; version=0.0.4; charset=utf-8",
            Outcome::Page(Page::Status) => "application/json",
            _ => "text/plain; charset=utf-8",
        })
    }
}

/// The line that says which methods there are, where another one was asked.
#[derive(Clone, Copy)]
struct Allowed(Outcome);

impl fmt::Display for Allowed {
    ghost output = { λ allowed. Some (allowed_line allowed.0) };

    fn fmt<W: fmt::Write>(&self, f: &mut fmt::Formatter<W>) -> fmt::Result {
        f.write_str(match self.0 {
            Outcome::NotAllowed => "Allow: GET, HEAD\r\n",
            _ => "",
        })
    }
}

/// The line that says what came of the request.
#[derive(Clone, Copy)]
struct StatusLine(Outcome);

impl fmt::Display for StatusLine {
    ghost output = { λ line. Some (status_line line.0) };

    #[tactic(auto, unfolding(crate::specs::Responses::status_line))]
    fn fmt<W: fmt::Write>(&self, f: &mut fmt::Formatter<W>) -> fmt::Result {
        write!(f, "HTTP/1.1 {} {}\r\n", self.0.code(), self.0)
    }
}

/// The lines that say what the body is, and how long it is.
#[derive(Clone, Copy)]
struct ContentLines(Outcome, usize);

impl fmt::Display for ContentLines {
    ghost output = { λ lines. Some (content_lines lines.0 lines.1) };

    #[tactic(auto, unfolding(crate::specs::Responses::content_lines))]
    fn fmt<W: fmt::Write>(&self, f: &mut fmt::Formatter<W>) -> fmt::Result {
        let ContentLines(outcome, len) = *self;
        let media = MediaType(outcome);
        write!(f, "Content-Type: {media}\r\nContent-Length: {len}\r\n")
    }
}

/// The end of a head: after the response the connection is closed.
#[derive(Clone, Copy)]
struct LastLines;

impl fmt::Display for LastLines {
    ghost output = { λ _. Some last_lines };

    #[tactic(auto, unfolding(crate::specs::Responses::last_lines))]
    fn fmt<W: fmt::Write>(&self, f: &mut fmt::Formatter<W>) -> fmt::Result {
        f.write_str("Connection: close\r\n\r\n")
    }
}

/// What is sent of a body.
#[derive(Clone, Copy)]
struct Sent<'a>(Answer, &'a str);

impl fmt::Display for Sent<'_> {
    ghost output = { λ sent. Some (part_of sent.0 sent.1.now) };

    fn fmt<W: fmt::Write>(&self, f: &mut fmt::Formatter<W>) -> fmt::Result {
        f.write_str(if self.0.has_body { self.1 } else { "" })
    }
}

/// A response with this body, after which the connection is closed.
#[derive(Clone, Copy)]
struct Response<'a>(Answer, &'a str);

impl fmt::Display for Response<'_> {
    ghost output = { λ response. Some (response_text response.0 response.1.now) };

    #[tactic(auto, unfolding(crate::specs::Responses::response_text))]
    fn fmt<W: fmt::Write>(&self, f: &mut fmt::Formatter<W>) -> fmt::Result {
        let Response(answer, body) = *self;
        let outcome = answer.outcome;
        write!(
            f,
            "{}{}{}{}{}",
            StatusLine(outcome),
            ContentLines(outcome, body.len()),
            Allowed(outcome),
            LastLines,
            Sent(answer, body)
        )
    }
}

/// Returns the body of a page.
fn page_text(alloc: Global, page: Page, report: &Report) -> Result<String, AllocError>
    ensures { IfOk result (λ text. string_bytes text ≡ page_text page report.now) }
{
    match page {
        Page::Metrics => format!(in alloc; "{}", MetricsText(report)),
        Page::Status => format!(in alloc; "{}", StatusJson(report)),
        Page::Health => format!(in alloc; "ok\n"),
    }
}

/// Returns the body of what is answered.
fn body_of(alloc: Global, outcome: Outcome, report: &Report) -> Result<String, AllocError>
    ensures { IfOk result (λ text. string_bytes text ≡ body_of outcome report.now) }
{
    match outcome {
        Outcome::Page(page) => page_text(alloc, page, report),
        _ => format!(in alloc; "{outcome}\n"),
    }
}

/// Returns the response to what was asked, while the validator reports this.
pub fn response_for(alloc: Global, answer: Answer, report: &Report) -> Result<String, AllocError>
    ensures { IfOk result (λ text. string_bytes text ≡ response_for answer report.now) }
{
    let body = body_of(alloc, answer.outcome, report)?;
    let response = Response(answer, &body);
    format!(in alloc; "{response}")
}
