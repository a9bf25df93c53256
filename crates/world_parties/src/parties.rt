//! Who takes part in a world.

ghost use Rattle.std.specs.Prelude.{◌≡◌, ◌≤◌, ◌==◌, ℕ, true, false, length, nat_lt, slice_index_or, IfOk, OnOk, IfErr, IfSome, MatchOption};
ghost use Rattle.std.specs.List.{list_all, list_any};
ghost use Rattle.protocol.specs.Rings.{IsRingOf};
ghost use Rattle.protocol.specs.Tags.{Validator};
ghost use Rattle.world_parties.specs.Cast.{setting_of, is_validator, is_correct, is_liar, is_client, are_parties, LiesIn};

use crate::fault::FaultNumber;
use crate::keys::{SenderKeys, ring_of};
use authenticators::{KeyRing, Party};
use powers::{MOST_VALIDATORS, Powers};
use protocol::MOST_CLIENTS;
use std::alloc::{AllocError, Global};
use std::marker::Model;

/// The validators of a world, with their powers, and its clients. Each validator is correct or a liar.
#[derive(Drop)]
pub struct Parties {
    powers: Powers,
    lies: [bool; MOST_VALIDATORS],
    clients: u16,
    /// The keys of each liar, by its number, once they are kept.
    kept: Option<Vec<SenderKeys>>,
}

impl Model for Parties {
    ghost use Rattle.std.specs.Prelude.{◌≤◌};
    ghost use Rattle.powers.specs.Power.{ArePowers};
    ghost use Rattle.world_parties.specs.Cast.{Cast};

    ghost Value = { Cast };

    ghost view = { λ a. record { powers = a.powers; lies = a.lies; clients = a.clients } };

    ghost invariant = { λ a. a.clients ≤ 1024 };
}

impl Parties {
    /// Validators with these powers, of whom those with these numbers lie, and clients 0 to `clients` - 1.
    ///
    /// `NoSuchParty` (2) where there are no clients or more than 1,024, or a liar's number is no validator's.
    pub fn new(powers: Powers, clients: u16, liars: &[u16]) -> Result<Parties, FaultNumber>
        ensures powers { IfOk result (λ made. made.powers ≡ powers) }
        ensures clients { IfOk result (λ made. made.clients ≡ clients) }
        ensures lies { IfOk result (λ made. LiesIn made liars.now) }
        ensures fit { OnOk result (are_parties powers clients liars.now ≡ true) }
        ensures err { IfErr result (λ fault. (fault ≡ FaultNumber.NoSuchParty) × (are_parties powers clients liars.now ≡ false)) }
    {
        if clients == 0 || clients > MOST_CLIENTS {
            return Err(FaultNumber::NoSuchParty);
        }
        match flags_of(powers.count(), liars) {
            Some(lies) => Ok(Parties {
                powers,
                lies,
                clients,
                kept: None,
            }),
            None => Err(FaultNumber::NoSuchParty),
        }
    }

    /// Keeps the keys of each liar, so that they aren't made anew for each of its frames.
    pub fn keep_keys(&mut self, alloc: Global) -> Result<(), AllocError>
        ensures { self.new ≡ self.old }
    {
        let count = self.count();
        let mut kept = Vec::with_capacity(alloc, usize::from(count))?;
        for sender in 0..count {
            let most = if self.is_flagged(sender) { count } else { 0 };
            kept.push(SenderKeys::new(alloc, sender, most)?)?;
        }
        self.kept = Some(kept);
        Ok(())
    }

    /// The keys of what a party sends, where they are kept.
    pub(crate) fn kept_of(&self, from: Party) -> Option<&SenderKeys>
        ensures { IfSome result (λ keys. (from ≡ Validator keys.now.sender) × (length keys.now.keys.items ≡ length self.now.powers)) }
    {
        let Party::Validator(sender) = from else {
            return None;
        };
        let keys = self.kept.as_ref()?.get(usize::from(sender))?;
        if keys.are_of(sender, self.count()) {
            Some(keys)
        } else {
            None
        }
    }

    /// How many validators there are.
    pub fn count(&self) -> u16
        ensures count { result ≡ length self.now.powers }
        ensures few { result ≤ 128 }
        ensures some { 1 ≤ result }
    {
        self.powers.count()
    }

    /// The powers of all.
    pub fn powers(&self) -> &Powers
        ensures { result.now ≡ self.now.powers }
    {
        &self.powers
    }

    /// The correct validator with this number.
    pub fn correct_at(&self, number: u64) -> Result<u16, FaultNumber>
        ensures ok { IfOk result (λ found. (found ≡ number) × (is_correct self.now number ≡ true)) }
        ensures err { IfErr result (λ fault. (fault ≡ FaultNumber.NoSuchParty) × (is_correct self.now number ≡ false)) }
    {
        if number < u64::from(self.count()) && !self.is_flagged(number as u16) {
            Ok(number as u16)
        } else {
            Err(FaultNumber::NoSuchParty)
        }
    }

    /// The liar with this number.
    pub fn liar_at(&self, number: u64) -> Result<u16, FaultNumber>
        ensures ok { IfOk result (λ found. (found ≡ number) × (is_liar self.now number ≡ true)) }
        ensures err { IfErr result (λ fault. (fault ≡ FaultNumber.NoSuchParty) × (is_liar self.now number ≡ false)) }
    {
        if number < u64::from(self.count()) && self.is_flagged(number as u16) {
            Ok(number as u16)
        } else {
            Err(FaultNumber::NoSuchParty)
        }
    }

    /// The client with this number.
    pub fn client_at(&self, number: u64) -> Result<u16, FaultNumber>
        ensures ok { IfOk result (λ found. (found ≡ number) × (is_client self.now number ≡ true)) }
        ensures err { IfErr result (λ fault. (fault ≡ FaultNumber.NoSuchParty) × (is_client self.now number ≡ false)) }
    {
        if number < u64::from(self.clients) {
            Ok(number as u16)
        } else {
            Err(FaultNumber::NoSuchParty)
        }
    }

    /// Whether this validator is marked as a liar.
    fn is_flagged(&self, validator: u16) -> bool
        ensures { result ≡ slice_index_or self.now.lies validator false }
    {
        self.lies
            .get(usize::from(validator))
            .copied()
            .unwrap_or(false)
    }

    /// The keys of a validator.
    pub fn ring_of(&self, alloc: Global, validator: u16) -> Result<KeyRing, AllocError>
        requires { is_validator self.now validator ≡ true }
        ensures { IfOk result (λ ring. IsRingOf (setting_of self.now) validator ring) }
    {
        ring_of(alloc, validator, self.powers.count(), self.clients)
    }
}

/// Which numbers stand in the list; none where one of them is no validator's.
fn flags_of(validators: u16, liars: &[u16]) -> Option<[bool; MOST_VALIDATORS]>
    requires { validators ≤ 128 }
    ensures { MatchOption result
        (list_all (λ number. nat_lt number validators) liars.now ≡ false)
        (λ lies. (list_all (λ number. nat_lt number validators) liars.now ≡ true) × ((q : ℕ) → slice_index_or lies q false ≡ list_any (λ number. number == q) liars.now)) }
{
    let mut lies = [false; MOST_VALIDATORS];
    for liar in liars {
        if *liar >= validators {
            return None;
        }
        lies[*liar as usize] = true;
    }
    Some(lies)
}
