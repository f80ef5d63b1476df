//! Authentic and cryptographic PDUs as they arrive, joined.
ghost use Rattle.std.specs.Prelude.{◌≡◌, ◌↔◌, ◌≤◌, [], IsTrue, None, take, drop, IfErr, IfOk, IfSome};
ghost use Rattle.pdu_collection.specs.Collection.{IsAuthentic, IsCryptographic, link_of};
ghost use Rattle.pdu_collection.specs.Joining.{authentic, cryptographic};
ghost use Rattle.pdu_collection.specs.Joined.{Given, Arrives, IsPartner};

use crate::linker::{Linker, join};
use basics::Pdu;
use std::marker::Model;

/// A PDU hasn't the length of its kind.
#[derive(Clone, Copy, Debug, PartialEq, Eq)]
pub struct BadLength;

/// Joins the PDUs of one Secured PDU collection as they arrive. An arrival joins the latest earlier one of the other
/// kind, if their links are equal. That one must join none, and no arrival between them may have joined it.
///
/// It keeps of each kind the latest arrival if that is single, which is all that a later one may join: if two are
/// joined, none.
#[derive(Drop)]
pub struct Joiner {
    linker: Linker,
    payload: Option<Pdu>,
    pdu: Option<Pdu>,
}

impl Model for Joiner {
    ghost use Rattle.std.specs.Prelude.{IfSome};
    ghost use Rattle.pdu_collection.specs.Collection.{IsPlace, IsAuthentic, IsCryptographic};
    ghost use Rattle.pdu_collection.specs.Joined.{JoinerState};

    ghost Value = { JoinerState };

    ghost view = { λ j. record { place = j.linker; payload = j.payload; pdu = j.pdu } };

    ghost invariant = { λ j. IfSome j.payload (IsAuthentic j.linker) × IfSome j.pdu (IsCryptographic j.linker) };
}

impl Joiner {
    /// A joiner that was given no arrival yet.
    pub fn new(linker: Linker) -> Joiner
        ensures value { result ≡ record { place = linker; payload = None; pdu = None } }
        ensures given { Given result [] }
    {
        Joiner {
            linker,
            payload: None,
            pdu: None,
        }
    }

    /// An authentic PDU arrives. If it joins an earlier arrival, `out` begins with their Secured I-PDU, and its length
    /// is given. `BadLength` exactly if it hasn't 1 to 60 bytes or not those of the link; nothing is then changed.
    pub fn authentic(&mut self, pdu: &[u8], out: &mut [u8; 64]) -> Result<Option<usize>, BadLength>
        ensures bad_length { IfErr result (λ _. ¬ IsAuthentic self.old.place pdu.now
            × (self.new ≡ self.old) × (out.new ≡ out.old)) }
        ensures good_length { IfOk result (λ _. IsAuthentic self.old.place pdu.now) }
        ensures size { IfOk result (λ size. IfSome size (λ n. (5 ≤ n) × (n ≤ 64))) }
        ensures arrives { IfOk result (Arrives self.old self.new (record { kind = authentic; pdu = pdu.now })
            out.old out.new) }
    {
        if !self.linker.is_authentic(pdu) {
            return Err(BadLength);
        }
        match self.pdu_for(pdu) {
            Some(waiting) => {
                self.payload = None;
                self.pdu = None;
                Ok(Some(join(pdu, waiting.bytes(), out)))
            }
            None => {
                self.payload = Pdu::of(pdu);
                Ok(None)
            }
        }
    }

    /// A cryptographic PDU arrives. If it joins an earlier arrival, `out` begins with their Secured I-PDU, and its
    /// length is given. `BadLength` exactly if it hasn't four bytes and those of the link; nothing is then changed.
    pub fn cryptographic(
        &mut self,
        pdu: &[u8],
        out: &mut [u8; 64],
    ) -> Result<Option<usize>, BadLength>
        ensures bad_length { IfErr result (λ _. ¬ IsCryptographic self.old.place pdu.now
            × (self.new ≡ self.old) × (out.new ≡ out.old)) }
        ensures good_length { IfOk result (λ _. IsCryptographic self.old.place pdu.now) }
        ensures size { IfOk result (λ size. IfSome size (λ n. (5 ≤ n) × (n ≤ 64))) }
        ensures arrives { IfOk result (Arrives self.old self.new (record { kind = cryptographic; pdu = pdu.now })
            out.old out.new) }
    {
        if !self.linker.is_cryptographic(pdu) {
            return Err(BadLength);
        }
        match self.payload_for(pdu) {
            Some(waiting) => {
                self.payload = None;
                self.pdu = None;
                Ok(Some(join(waiting.bytes(), pdu, out)))
            }
            None => {
                self.pdu = Pdu::of(pdu);
                Ok(None)
            }
        }
    }

    // The cryptographic PDU that waits for one with the link of this payload.
    fn pdu_for(&self, payload: &[u8]) -> Option<Pdu>
        requires { IsAuthentic self.now.place payload.now }
        ensures partner { IsPartner (link_of self.now.place payload.now) (λ pdu. drop 4 pdu) self.now.pdu result }
        ensures kind { IfSome result (IsCryptographic self.now.place) }
    {
        let waiting = self.pdu?;
        if !self.links(payload, waiting.bytes()) {
            return None;
        }
        Some(waiting)
    }

    // The payload that waits for one with the link of this cryptographic PDU.
    fn payload_for(&self, pdu: &[u8]) -> Option<Pdu>
        requires { IsCryptographic self.now.place pdu.now }
        ensures partner { IsPartner (drop 4 pdu.now) (link_of self.now.place) self.now.payload result }
        ensures kind { IfSome result (IsAuthentic self.now.place) }
    {
        let waiting = self.payload?;
        if !self.links(waiting.bytes(), pdu) {
            return None;
        }
        Some(waiting)
    }

    // Whether a payload has the link of a cryptographic PDU.
    fn links(&self, payload: &[u8], pdu: &[u8]) -> bool
        requires payload { IsAuthentic self.now.place payload.now }
        requires pdu { IsCryptographic self.now.place pdu.now }
        ensures { IsTrue result ↔ (link_of self.now.place payload.now ≡ drop 4 pdu.now) }
    {
        self.linker.link_of(payload) == &pdu[4..]
    }
}
