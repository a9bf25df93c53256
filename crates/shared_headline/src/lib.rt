//! The headline of nodes that threads share, and of what their subscribers took.
//!
//! A shared node keeps a history of what was handed to it, and each of its subscriptions a segment of what it
//! delivered (`locked_node`). `world_schedule` says the headline of cores after calls. Here they are one: where each
//! node's history is its part of the calls that were made of several validators, of what subscribers of two correct
//! validators took from position 0 on one begins the other.
//!
//! Each theorem is the contract of a function that does nothing, and no other crate uses this one.
#![tactic(auto)]

ghost use Rattle.shared_headline.specs.Laws.{LivesLaw, SharedLaw};

use locked_node::subscribers_law;

/// A shared node is where the calls have brought its validator, if its history is its part of them since its opening.
pub fn lives_law()
    ensures { LivesLaw }
{}

/// Of what two correct validators' shared nodes delivered one begins the other, at any two moments, and so it is with
/// what their subscribers took; each list keeps every client's order, and a correct client's items in it begin what
/// the client sent.
pub fn shared_law()
    ensures { SharedLaw }
{
    subscribers_law();
}
