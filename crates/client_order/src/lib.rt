//! What the clients' order says of a whole list, in plain words.
//!
//! `protocol` defines the order as a walk along a client's items, which asks of each item whether it is the next
//! one (`in_turn`; `fifo` asks it for every client). The code walks in the same way, but a reader has to work out
//! what it comes to. The theorems here say it: the items are the client's sessions 0, 1, .., one after the other;
//! a session's items are numbered 1, 2, ..; a close is its session's last item; and each session but the last ends
//! with one.
//!
//! Each theorem is the contract of a function that does nothing, and no program rests on it. The words are
//! defined in `specs/Sessions.antt`.
#![tactic(auto)]

ghost use Rattle.client_order.specs.Laws.{ClientsLaw, DivisionLaw, SessionsLaw};

/// A client's items are in turn exactly where they are its sessions, one after the other.
pub fn sessions_law()
    ensures { SessionsLaw }
{}

/// A list keeps the clients' order exactly where the items of every client are its sessions, one after the
/// other. A client that has no item has no session.
pub fn clients_law()
    ensures { ClientsLaw }
{}

/// Which item is of which session is never in doubt: a list is divided into sessions in one way at most.
pub fn division_law()
    ensures { DivisionLaw }
{}
