//! Which lines the type has.
ghost use Rattle.bus_machine.specs.declared.lines.Line.TheVariants.{Sent, Accepted};
ghost use Rattle.bus_machine.specs.LineKinds.{IsLine, IsRefusal, IsReply};

use crate::lines::{Line, Refusal};
use basics::Pdu;
use memory_update::Reply;

/// Every line of the type meets the premise of the laws: its numbers fit, and its bytes are at most 64.
pub fn every_line_is_one(line: &Line)
    ensures { IsLine line.now }
{
    match *line {
        Line::Sent { id, freshness, pdu } => every_sent_is_one(id, freshness, &pdu),
        Line::Accepted {
            id,
            freshness,
            payload,
            from,
        } => every_accepted_is_one(id, freshness, &payload, from),
        Line::Keyed { slot } => {
            let _read = slot.number();
        }
        Line::Loaded { reply } => every_reply_is_one(&reply),
        Line::Refused(refusal) => every_refusal_is_one(&refusal),
        _ => {}
    }
}

fn every_sent_is_one(id: u16, freshness: u64, pdu: &Pdu)
    ensures { IsLine (Sent id freshness pdu.now) }
{
    let _numbers = (id, freshness);
    let _bytes = pdu.bytes();
}

fn every_accepted_is_one(id: u16, freshness: u64, payload: &Pdu, from: Option<u32>)
    ensures { IsLine (Accepted id freshness payload.now from) }
{
    let _numbers = (id, freshness, from);
    let _bytes = payload.bytes();
}

fn every_reply_is_one(reply: &Reply)
    ensures { IsReply reply.now }
{
    let [first, second] = &reply.m4;
    let _first = first.bytes();
    let _second = second.bytes();
    let _last = reply.m5.bytes();
}

fn every_refusal_is_one(refusal: &Refusal)
    ensures { IsRefusal refusal.now }
{
    match *refusal {
        Refusal::BadSlot(slot) => {
            let _read = slot.number();
        }
        Refusal::Damaged(number) | Refusal::BadBound(number) => {
            let _read = number;
        }
        _ => {}
    }
}
