//! The key of a slot, lent to make and judge Secured I-PDUs (AUTOSAR SecOC, profile 1).
ghost use Rattle.std.specs.Prelude.{◌≡◌, ◌+◌, ◌∷◌, ◌++◌, length, take, drop, IfNone, IfSome};
ghost use Rattle.secured_pdu.specs.Frame.{IsPayload, IsWindow, Secured};
ghost use Rattle.secured_pdu.specs.Verdict.{Verdict};
ghost use Rattle.secured_pdu.specs.Judged.{outcome_of};

use secured_pdu::{Judgement, Parts, build, judge};
use she_aes::Schedule;
use std::marker::Model;

/// The key of a slot that serves MACs, lent by its engine. It makes and judges Secured I-PDUs, and hands out no key.
/// Contracts see the key, of 16 bytes.
#[derive(Drop)]
pub struct MacKey<'a> {
    schedule: &'a Schedule,
}

impl<'a> Model for MacKey<'a> {
    ghost use Rattle.std.specs.Prelude.{List, ℕ};

    ghost Value = { List ℕ };

    ghost view = { λ key. key.schedule.now };
}

impl<'a> MacKey<'a> {
    pub(crate) fn of(schedule: &'a Schedule) -> MacKey<'a>
        ensures { result ≡ schedule.now }
    {
        MacKey { schedule }
    }

    /// Writes the Secured I-PDU to the beginning of `out` and gives its length in bytes. For a payload that has not 1
    /// to 60 bytes it gives `None` and writes nothing.
    pub fn build(
        &self,
        id: u16,
        payload: &[u8],
        freshness: u64,
        out: &mut [u8; 64],
    ) -> Option<usize>
        ensures refused { IfNone result (¬ IsPayload payload.now) }
        ensures unchanged { IfNone result (out.new ≡ out.old) }
        ensures length { IfSome result (λ n. n ≡ length payload.now + 4) }
        ensures secured { IfSome result (λ n. Secured self.now id payload.now freshness (take n out.new)) }
        ensures rest { IfSome result (λ n. drop n out.new ≡ drop n out.old) }
    {
        build(self.schedule, id, payload, freshness, out)
    }

    /// The verdict on the PDU of these parts, by a receiver with this counter and window. A window is 1 to 256.
    pub fn judge(&self, id: u16, counter: u64, window: u16, parts: &Parts<'_>) -> Judgement
        requires window { IsWindow window }
        requires payload { IsPayload parts.now.payload.now }
        ensures verdict { let frame = parts.now.payload.now ++ parts.now.low ∷ parts.now.tag
            in Verdict self.now id counter window frame (outcome_of parts.now.payload.now result) }
    {
        judge(self.schedule, id, counter, window, parts)
    }
}
