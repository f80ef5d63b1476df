//! The message link, and the two PDUs of a collection.
ghost use Rattle.std.specs.Prelude.{◌≡◌, ◌↔◌, ◌+◌, ◌≤◌, true, length, take, drop, IfNone, IfSome};
ghost use Rattle.pdu_collection.specs.Collection.{IsPlace, IsAuthentic, IsCryptographic, IsPartOf, link_of, joined_pdu};

use basics::append;
use secured_pdu::build;
use she_aes::Schedule;
use std::marker::Model;

/// Which bytes of a payload the message link repeats (AUTOSAR SecOC, Secured I-PDU collection; the layout is this
/// project's own).
#[derive(Clone, Copy, Debug)]
pub struct Linker {
    at: u8,
    size: u8,
}

impl Model for Linker {
    ghost use Rattle.pdu_collection.specs.Collection.{Place, IsPlace};

    ghost Value = { Place };

    ghost view = { λ l. record { at = l.at; size = l.size } };

    ghost invariant = { λ l. IsPlace (record { at = l.at; size = l.size }) };

    ghost inverse = { λ p. record { at = p.at; size = p.size } };
}

impl Linker {
    /// The link of `size` bytes from place `at` of a payload on. `None` exactly if these aren't 1 to 4 bytes of the
    /// first 60.
    pub fn new(at: u8, size: u8) -> Option<Linker>
        ensures none { IfNone result (¬ IsPlace (record { at = at; size = size })) }
        ensures some { IfSome result (λ linker. linker ≡ record { at = at; size = size }) }
        ensures is_place { IfSome result (λ _. IsPlace (record { at = at; size = size })) }
    {
        if size < 1 || size > 4 || at > 60 - size {
            return None;
        }
        Some(Linker { at, size })
    }

    /// Whether a PDU is an authentic one: a payload of 1 to 60 bytes that has those of the link.
    pub fn is_authentic(&self, pdu: &[u8]) -> bool
        ensures { (result ≡ true) ↔ IsAuthentic self.now pdu.now }
    {
        !pdu.is_empty() && pdu.len() <= 60 && self.end() <= pdu.len()
    }

    /// Whether a PDU is a cryptographic one: four bytes and the link.
    pub fn is_cryptographic(&self, pdu: &[u8]) -> bool
        ensures { (result ≡ true) ↔ IsCryptographic self.now pdu.now }
    {
        pdu.len() == 4 + usize::from(self.size)
    }

    // The place after the bytes of the link.
    fn end(&self) -> usize
        ensures exact { result ≡ self.now.at + self.now.size }
    {
        usize::from(self.at) + usize::from(self.size)
    }

    /// The message link of an authentic PDU.
    pub fn link_of<'a>(&self, payload: &'a [u8]) -> &'a [u8]
        requires { IsAuthentic self.now payload.now }
        ensures value { result.now ≡ link_of self.now payload.now }
        ensures size { length result.now ≡ self.now.size }
        ensures few { self.now.size ≤ 4 }
    {
        let from = &payload[usize::from(self.at)..];
        &from[..usize::from(self.size)]
    }

    /// Writes the cryptographic PDU of a payload and a freshness to the beginning of `out`, and gives its length, 5 to
    /// 8 bytes: the low byte of the freshness, the first three bytes of the authenticator, and the link. `None` exactly
    /// if the payload isn't an authentic PDU; `out` is then as before.
    pub fn part(
        &self,
        schedule: &Schedule,
        id: u16,
        payload: &[u8],
        freshness: u64,
        out: &mut [u8; 8],
    ) -> Option<usize>
        ensures none { IfNone result (¬ IsAuthentic self.now payload.now) }
        ensures some { IfSome result (λ _. IsAuthentic self.now payload.now) }
        ensures unchanged { IfNone result (out.new ≡ out.old) }
        ensures length { IfSome result (λ n. n ≡ 4 + self.now.size) }
        ensures few { IfSome result (λ n. n ≤ 8) }
        ensures part { IfSome result (λ n. IsPartOf schedule.now id self.now payload.now freshness (take n out.new)) }
        ensures rest { IfSome result (λ n. drop n out.new ≡ drop n out.old) }
    {
        if !self.is_authentic(payload) {
            return None;
        }
        let mut frame = [0; 64];
        let end = build(schedule, id, payload, freshness, &mut frame)?;
        let secured = &frame[..end];
        let behind = append(out, 0, &secured[payload.len()..]);
        Some(append(out, behind, self.link_of(payload)))
    }
}

/// Writes the Secured I-PDU of an authentic and a cryptographic PDU to the beginning of `out`, and gives its length, 5
/// to 64 bytes.
pub fn join(payload: &[u8], pdu: &[u8], out: &mut [u8; 64]) -> usize
    requires payload { 1 ≤ length payload.now × length payload.now ≤ 60 }
    requires pdu { 4 ≤ length pdu.now }
    ensures length { result ≡ length payload.now + 4 }
    ensures joined { take result out.new ≡ joined_pdu payload.now pdu.now }
    ensures rest { drop result out.new ≡ drop result out.old }
{
    let behind = append(out, 0, payload);
    append(out, behind, &pdu[..4])
}
