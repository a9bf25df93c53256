//! Which requests get which answers.

use super::pages::report;
use node_metrics::{Answer, Heard, Outcome, Page, answer_to, asked_by, response_for};
use std::alloc::Global;
use std::process::Abort;
use std::test::Fail;

#[test]
fn pages_by_method_and_target(rt: HostRuntime) {
    try_pages(&rt);
}

fn try_pages(rt: &impl Abort) {
    let metrics = Outcome::Page(Page::Metrics);
    for (method, target, outcome, has_body) in [
        ("GET", "/metrics", metrics, true),
        ("GET", "/metrics?a=b", metrics, true),
        ("HEAD", "/metrics", metrics, false),
        ("GET", "/status", Outcome::Page(Page::Status), true),
        ("GET", "/healthz", Outcome::Page(Page::Health), true),
        ("GET", "/", Outcome::NotFound, true),
        ("POST", "/other", Outcome::NotFound, true),
        ("POST", "/status", Outcome::NotAllowed, true),
    ] {
        let wanted = Answer { outcome, has_body };
        assert!(rt;
            answer_to(method.as_bytes(), target.as_bytes()) == wanted,
            "{method} {target}"
        );
    }
}

#[test]
fn what_bytes_ask_for(rt: HostRuntime) {
    try_bytes(&rt);
}

fn try_bytes(rt: &impl Abort) {
    let page = Outcome::Page(Page::Health);
    assert!(rt; asked_by(b"GET /healthz HTTP/1.1\r\nHost: a") == Heard::Unfinished);
    assert!(rt; outcome_by(b"GET /healthz HTTP/1.1\r\nHost: a\r\n\r\n") == Some(page));
    assert!(rt; outcome_by(b"GET /healthz HTTP/1.0\r\n\r\nmore") == Some(page));
    assert!(rt; outcome_by(b"GET  /healthz HTTP/1.1\r\n\r\n") == Some(Outcome::BadRequest));
    assert!(rt; outcome_by(&[b'A'; 8_192]).is_none());
    assert!(rt; outcome_by(&long_request(false)) == Some(page));
    assert!(rt; outcome_by(&long_request(true)) == Some(Outcome::TooLarge));
    assert!(rt; outcome_by(&[b'A'; 8_193]) == Some(Outcome::TooLarge));
}

/// A request whose head has 8,192 bytes or one more, with a body behind it.
fn long_request(is_too_long: bool) -> [u8; 9_000] {
    let mut bytes = [b'B'; 9_000];
    bytes[..25].copy_from_slice(b"GET /healthz HTTP/1.1\r\nA:");
    if is_too_long {
        bytes[8_189..8_193].copy_from_slice(b"\r\n\r\n");
    } else {
        bytes[8_188..8_192].copy_from_slice(b"\r\n\r\n");
    }
    bytes
}

fn outcome_by(bytes: &[u8]) -> Option<Outcome> {
    match asked_by(bytes) {
        Heard::Unfinished => None,
        Heard::Asked(answer) => Some(answer.outcome),
    }
}

#[test]
fn responses(rt: HostRuntime) -> Result<(), Fail> {
    let alloc = rt.alloc();
    let page = Outcome::Page(Page::Health);
    let found = response_to(alloc, page, true)?;
    assert!(rt;
        found.as_str()
            == "HTTP/1.1 200 OK\r\nContent-Type: text/plain; charset=utf-8\r\nContent-Length: 3\r\nConnection: close\r\n\r\nok\n"
    );
    let head = response_to(alloc, page, false)?;
    assert!(rt;
        head.as_str()
            == "HTTP/1.1 200 OK\r\nContent-Type: text/plain; charset=utf-8\r\nContent-Length: 3\r\nConnection: close\r\n\r\n"
    );
    let other = response_to(alloc, Outcome::NotAllowed, true)?;
    assert!(rt; other.starts_with("HTTP/1.1 405 Method Not Allowed\r\n"));
    assert!(rt;
        other.ends_with("19\r\nAllow: GET, HEAD\r\nConnection: close\r\n\r\nMethod Not Allowed\n")
    );
    Ok(())
}

fn response_to(alloc: Global, outcome: Outcome, has_body: bool) -> Result<String, Fail> {
    let answer = Answer { outcome, has_body };
    Ok(response_for(alloc, answer, &report())?)
}
