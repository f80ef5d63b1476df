//! Nonces for questions, of a count that a route keeps.
ghost use Rattle.std.specs.Prelude.{◌≡◌, ◌≢◌, ◌+◌};
ghost use Rattle.freshness_routes.specs.declared.routes.Direction.TheVariants.{Sends};
ghost use Rattle.rathonsi_c.specs.Routes.{RouteAdvances};
ghost use Rattle.rathonsi_c.specs.Nonces.{NonceAnswers, MakesNonce, nonce_input as input_of_nonce};

use crate::opened::move_counter;
use crate::route::{RathonsiRoute, may_send};
use crate::{BAD_VALUE, OK};
use basics::append;
use she_aes::expand;
use she_cmac::cmac;

const LABEL: [u8; 66] = *b"RATHONSI NONCE OF THIS UNIT: A COUNT THAT IS DURABLE BEFORE IT IS.";

// What the CMAC of a nonce covers.
fn nonce_input(id: u16, asker: u32, count: u64) -> [u8; 80]
    ensures { result ≡ input_of_nonce id asker count }
{
    let mut input = [0; 80];
    let after_label = append(&mut input, 0, &LABEL);
    let after_id = append(&mut input, after_label, &id.to_be_bytes());
    let after_asker = append(&mut input, after_id, &asker.to_be_bytes());
    append(&mut input, after_asker, &count.to_be_bytes());
    input
}

/// Makes a nonce by a route that sends nothing else, for the questions of the unit with this name: the CMAC of the name
/// and of the route's next freshness, which becomes its counter, under the key of its slot. Freshness strictly rises
/// over all lives, so no unit makes two nonces of one count; and who has no key foretells none. `BAD_VALUE` (also: `freshness_only` isn't 1), `WRONG_CELL`, `DAMAGED`, `KEY_EMPTY`,
/// `KEY_INVALID`, `KEY_NOT_AVAILABLE`, `EXHAUSTED`, `RESERVE`: the first that applies.
#[unsafe(no_mangle)]
pub extern "C" fn rathonsi_sync_nonce(
    route: &mut RathonsiRoute,
    image: &[u8],
    asker: u32,
    nonce: &mut [u8; 16],
) -> i32
    ensures answer { NonceAnswers route.old image.now result }
    ensures made { result ≡ OK → MakesNonce route.old image.now asker nonce.new }
    ensures counted { result ≡ OK → RouteAdvances Sends route.old image.now (route.old.counter + 1) route.new }
    ensures unchanged { result ≢ OK → (route.new ≡ route.old) × (nonce.new ≡ nonce.old) }
{
    if route.freshness_only != 1 {
        return BAD_VALUE;
    }
    let sending = match may_send(route, image) {
        Ok(sending) => sending,
        Err(refusal) => return refusal.status(),
    };
    let input = nonce_input(route.data_id, asker, sending.freshness);
    *nonce = *cmac(&expand(&sending.key), &input).bytes();
    move_counter(route, sending.freshness);
    OK
}
