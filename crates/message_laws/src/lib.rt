//! What of messages a reader of the headline has to know, in place of the formats and the table of refusals.
//!
//! `protocol` defines the headline over bytes, which validators read by the grammar, and over every cause for which a message is
//! refused. It holds whatever a message's bytes are, and rests only on whether a message is taken in. The theorems here say
//! what is left to know: bytes are read only as the message whose frame they are; what a correct validator releases is read by
//! each as it was said; no two messages look alike; and which messages are taken in.
//!
//! Each theorem is the contract of a function that does nothing, and no other crate uses this one.
#![tactic(auto)]

ghost use Rattle.message_laws.specs.Heard.{ApartLaw, HeardLaw, ReadLaw, SameLaw};
ghost use Rattle.message_laws.specs.Taken.{TakenLaw};

/// Bytes are read as a message only where they are its frame.
pub fn read_law()
    ensures { ReadLaw }
{}

/// What a correct validator releases is read by each validator as it was said, and its tags are found right, whatever
/// came before; so is a transaction in range.
pub fn heard_law()
    ensures { HeardLaw }
{}

/// Of what is read, the bytes of bodies and values tell them apart, so a tag or a digest is of one of them. The bytes that a
/// client tags tell transactions apart.
pub fn apart_law()
    ensures { ApartLaw }
{}

/// Equality as the rules ask it is that of the whole.
pub fn same_law()
    ensures { SameLaw }
{}

/// A message is taken in, which is that nothing stands against it, where it meets these conditions, and nowhere else.
pub fn taken_law()
    ensures { TakenLaw }
{}
