//! What holds of every shared node.

ghost use Rattle.locked_node.specs.Certified.{CertificatesLaw, CountLaw};
ghost use Rattle.locked_node.specs.Subscribers.{SubscribersLaw};

/// Each decision of a shared node has its certificate: precommits for its value's id that name distinct senders, a quorum's.
/// It holds at each moment of a node that `NodeCore::new` or `NodeCore::open` made, also after it halted; and of any
/// other until it halts.
pub fn certificates_law()
    ensures { CertificatesLaw }
{}

/// The published number of items is all that it delivered, of the same nodes.
pub fn count_law()
    ensures { CountLaw }
{}

/// What a subscriber took from position 0 on, of a ring whose rule holds, begins what the node delivered. So of what subscribers took
/// of two nodes one begins the other, where so it is with the delivered lists, as the headline says of correct validators.
pub fn subscribers_law()
    ensures { SubscribersLaw }
{}
