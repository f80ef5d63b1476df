//! The authenticated input, and the PDU: put together and taken apart.
ghost use Rattle.std.specs.Prelude.{◌≡◌, ◌+◌, ◌∷◌, ◌++◌, length, take, drop, IfNone, IfSome};
ghost use Rattle.she_cmac.specs.Cmac.{cmac};
ghost use Rattle.secured_pdu.specs.Frame.{authenticated_input, assembled, IsPayload, IsFrame, Secured};

use basics::append;
use she_cmac::{Block, Schedule, cmac};

/// The widest window that a receiver has. In a wider one two freshnesses would have one low byte.
pub const WIDEST_WINDOW: u16 = 256;

/// Writes the authenticated input to the beginning of `out` and gives its length in bytes. All numbers are big-endian.
pub fn input_bytes(id: u16, payload: &[u8], freshness: u64, out: &mut [u8; 70]) -> usize
    requires { IsPayload payload.now }
    ensures length { result ≡ length payload.now + 10 }
    ensures front { take result out.new ≡ authenticated_input id payload.now freshness }
    ensures rest { drop result out.new ≡ drop result out.old }
{
    let after_id = append(out, 0, &id.to_be_bytes());
    let after_payload = append(out, after_id, payload);
    append(out, after_payload, &freshness.to_be_bytes())
}

/// The authenticator of this payload and freshness, before it is cut to three bytes.
pub fn input_mac(schedule: &Schedule, id: u16, payload: &[u8], freshness: u64) -> Block
    requires { IsPayload payload.now }
    ensures { result ≡ cmac schedule.now (authenticated_input id payload.now freshness) }
{
    let mut input = [0; 70];
    let length = input_bytes(id, payload, freshness, &mut input);
    cmac(schedule, &input[..length])
}

/// Writes the PDU to the beginning of `out` and gives its length in bytes: the payload, the low byte of the freshness,
/// and the first three bytes of the authenticator.
pub fn assemble(payload: &[u8], freshness: u64, mac: &Block, out: &mut [u8; 64]) -> usize
    requires { IsPayload payload.now }
    ensures length { result ≡ length payload.now + 4 }
    ensures front { take result out.new ≡ assembled payload.now freshness mac.now }
    ensures rest { drop result out.new ≡ drop result out.old }
{
    let after_payload = append(out, 0, payload);
    let after_low = append(out, after_payload, &[(freshness % 256) as u8]);
    append(out, after_low, &tag_of(mac))
}

/// Writes the Secured I-PDU to the beginning of `out` and gives its length in bytes. For a payload that has not 1 to 60
/// bytes it gives `None` and writes nothing.
pub fn build(
    schedule: &Schedule,
    id: u16,
    payload: &[u8],
    freshness: u64,
    out: &mut [u8; 64],
) -> Option<usize>
    ensures refused { IfNone result (¬ IsPayload payload.now) }
    ensures unchanged { IfNone result (out.new ≡ out.old) }
    ensures length { IfSome result (λ n. n ≡ length payload.now + 4) }
    ensures secured { IfSome result (λ n. Secured schedule.now id payload.now freshness (take n out.new)) }
    ensures rest { IfSome result (λ n. drop n out.new ≡ drop n out.old) }
{
    if payload.is_empty() || payload.len() > 60 {
        return None;
    }
    let mac = input_mac(schedule, id, payload, freshness);
    Some(assemble(payload, freshness, &mac, out))
}

/// A PDU taken apart. The payload is a part of the PDU itself.
#[derive(Clone, Copy)]
pub struct Parts<'a> {
    /// the payload, of 1 to 60 bytes if `split` made the parts
    pub payload: &'a [u8],
    /// the low byte of the freshness
    pub low: u8,
    /// the first three bytes of the authenticator
    pub tag: [u8; 3],
}

/// Takes a PDU of 5 to 64 bytes apart, and gives `None` for another length. Only the last four bytes are copied.
pub fn split(pdu: &[u8]) -> Option<Parts<'_>>
    ensures refused { IfNone result (¬ IsFrame pdu.now) }
    ensures found { IfSome result (λ _. IsFrame pdu.now) }
    ensures size { IfSome result (λ parts. IsPayload parts.payload.now) }
    ensures parts { IfSome result (λ parts. pdu.now ≡ parts.payload.now ++ parts.low ∷ parts.tag) }
{
    if pdu.len() < 5 || pdu.len() > 64 {
        return None;
    }
    let (payload, trailer) = pdu.split_at(pdu.len() - 4);
    Some(Parts {
        payload,
        low: trailer[0],
        tag: [trailer[1], trailer[2], trailer[3]],
    })
}

/// The first three bytes of the authenticator.
pub(crate) fn tag_of(mac: &Block) -> [u8; 3]
    ensures { result ≡ take 3 mac.now }
{
    let bytes = mac.bytes();
    [bytes[0], bytes[1], bytes[2]]
}
