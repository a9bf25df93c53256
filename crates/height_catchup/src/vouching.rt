//! The precommits of a bundle whose own tags are right.

ghost use Rattle.std.specs.Prelude.{◌≡◌, ◌<◌, ◌≤◌, ℕ, Some, find, IfOk, length};
ghost use Rattle.std.specs.Option.{option_copied};
ghost use Rattle.powers.specs.Power.{power};
ghost use Rattle.messages.specs.Grammar.{body_spelling, IsBundle};
ghost use Rattle.protocol.specs.Tags.{Setting};
ghost use Rattle.protocol.specs.Messages.{OfVote, precommit};
ghost use Rattle.protocol.specs.Rings.{IsRingOf};
ghost use Rattle.protocol.specs.Refusals.{is_vouching, bundle_senders, certified};

use authenticators::{Key, KeyRing, Party, is_right};
use messages::{Body, Bundle, Precommit, Step, Vote, spell_body};
use powers::{MOST_VALIDATORS, Powers};
use std::alloc::{AllocError, Global};
use transactions::{Duplicate, Seq};

/// The bundle with its right precommits alone, the first of each validator, in order of validator:
/// what a decision by it keeps as its certificate.
pub fn certified(alloc: Global, bundle: Bundle, ring: &KeyRing) -> Result<Bundle, AllocError>
    ensures cut { IfOk result (λ cut. (c : Setting) (p : ℕ) → IsRingOf c p ring.now → cut ≡ record bundle { precommits = certified c p bundle }) }
    // A bundle that can be spelled is cut down to one.
    ensures spelled { (c : Setting) (p : ℕ) → IsRingOf c p ring.now → length c.powers ≤ 128 → IsBundle bundle → IfOk result IsBundle }
{
    let precommits = right_precommits(alloc, &bundle, ring)?;
    Ok(Bundle {
        precommits,
        ..bundle
    })
}

fn right_precommits(
    alloc: Global,
    bundle: &Bundle,
    ring: &KeyRing,
) -> Result<Seq<Precommit>, AllocError>
    ensures { IfOk result (λ precommits. (c : Setting) (p : ℕ) → IsRingOf c p ring.now → precommits ≡ certified c p bundle.now) }
{
    let mut precommits = Vec::new(alloc);
    for validator in 0..ring.count() {
        match right_precommit(alloc, bundle, ring, validator)? {
            None => {}
            Some(precommit) => precommits.push(precommit.copy(alloc)?)?,
        }
    }
    Ok(Seq::from_vec(precommits))
}

/// The power of the validators of which the bundle has a right precommit.
pub(crate) fn vouching_power(
    alloc: Global,
    bundle: &Bundle,
    powers: &Powers,
    ring: &KeyRing,
) -> Result<u64, AllocError>
    ensures { IfOk result (λ n. (c : Setting) (p : ℕ) → c.powers ≡ powers.now → IsRingOf c p ring.now → n ≡ power powers.now (bundle_senders c p bundle.now)) }
{
    let mut marks = [false; MOST_VALIDATORS];
    for validator in 0..powers.count() {
        marks[usize::from(validator)] = right_precommit(alloc, bundle, ring, validator)?.is_some();
    }
    Ok(powers.power_of_set(&marks))
}

/// The first right precommit of a validator.
fn right_precommit<'a>(
    alloc: Global,
    bundle: &'a Bundle,
    ring: &KeyRing,
    validator: u16,
) -> Result<Option<&'a Precommit>, AllocError>
    ensures { IfOk result (λ found. (c : Setting) (p : ℕ) → IsRingOf c p ring.now → validator < length c.powers
        → option_copied found ≡ find (is_vouching c p bundle.now validator) bundle.now.precommits) }
{
    match Wanted::of(alloc, bundle, ring, validator)? {
        None => Ok(None),
        Some(wanted) => Ok(wanted.first_in(bundle.precommits.as_slice())),
    }
}

/// What a right precommit has: its sender, and among a tag for each validator the own one.
#[derive(Drop)]
struct Wanted<'a> {
    sender: u16,
    validators: u16,
    me: u16,
    key: &'a Key,
    body: Vec<u8>,
}

impl<'a> Wanted<'a> {
    ghost use Rattle.height_catchup.specs.Vouching.{is_wanted, Finds};

    /// What a validator's precommit for the bundle's id has, if the ring has a key of the validator.
    fn of(
        alloc: Global,
        bundle: &Bundle,
        ring: &'a KeyRing,
        validator: u16,
    ) -> Result<Option<Wanted<'a>>, AllocError>
        ensures { IfOk result (λ wanted. (c : Setting) (p : ℕ) → IsRingOf c p ring.now → validator < length c.powers → Finds wanted (is_vouching c p bundle.now validator)) }
    {
        let Party::Validator(me) = ring.me() else {
            return Ok(None);
        };
        let Some(key) = ring.incoming(Party::Validator(validator)) else {
            return Ok(None);
        };
        Ok(Some(Wanted {
            sender: validator,
            validators: ring.count(),
            me,
            key,
            body: spelling(alloc, bundle, validator)?,
        }))
    }

    /// The first that has it.
    fn first_in<'b>(&self, precommits: &'b [Precommit]) -> Option<&'b Precommit>
        ensures { option_copied result ≡ find (is_wanted self.now) precommits.now }
    {
        precommits.iter().find(|precommit| self.is_in(precommit))
    }

    fn is_in(&self, precommit: &Precommit) -> bool
        ensures { result ≡ is_wanted self.now precommit.now }
    {
        precommit.sender == self.sender
            && is_right(
                self.validators,
                self.key,
                self.me,
                &self.body,
                precommit.tags.as_slice(),
            )
    }
}

/// What a validator's tags are made over: its precommit for the bundle's id.
fn spelling(alloc: Global, bundle: &Bundle, validator: u16) -> Result<Vec<u8>, AllocError>
    ensures { IfOk result (λ bytes. bytes.items ≡ body_spelling (OfVote (precommit bundle.now.height bundle.now.round validator (Some bundle.now.id)))) }
{
    let vote = Vote {
        step: Step::Precommit,
        height: bundle.height,
        round: bundle.round,
        sender: validator,
        content: Some(bundle.id),
    };
    spell_body(alloc, &Body::Vote(vote)).map_err(|_| AllocError)
}
