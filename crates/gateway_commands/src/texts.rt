//! How the lines of a gateway are written.
ghost use Rattle.std.specs.Prelude.{◌≡◌, [], ◌∷◌, ◌++◌, OnOk};
ghost use Rattle.basics.specs.Numbers.{bytes_of};
ghost use Rattle.hex.specs.Hex.{encode_lower};
ghost use Rattle.text_lines.specs.Spaced.{spaced};
ghost use Rattle.secoc_gateway.specs.declared.gateway_lines.GatewayLine.TheVariants.{Dropped};
ghost use Rattle.gateway_commands.specs.Texts.{gateway_words, gateway_text};

use basics::Pdu;
use bus_machine::Refusal;
use bus_port::Memory;
use bus_script::push_told;
use bus_script::words::{push_freshness, push_id, push_refusal};
use run_driver::LineText;
use secoc_gateway::GatewayLine;
use std::alloc::{AllocError, Global};
use text_lines::pushing::{begin_line, end_line, push_hex, push_word};

/// The texts of the lines of a gateway.
pub struct GatewayTexts;

impl LineText<GatewayLine> for GatewayTexts {
    ghost use Rattle.gateway_commands.specs.Texts.{gateway_text};

    ghost text = { gateway_text };

    fn append(
        _alloc: Global,
        number: u32,
        line: &GatewayLine,
        out: &mut Vec<u8>,
    ) -> Result<(), Memory> {
        match append_line(number, line, out) {
            Ok(()) => Ok(()),
            Err(AllocError) => Err(Memory),
        }
    }
}

// Appends the text of the line with this number.
fn append_line(number: u32, line: &GatewayLine, out: &mut Vec<u8>) -> Result<(), AllocError>
    ensures { OnOk result (out.new.items ≡ out.old.items ++ gateway_text number line.now) }
{
    begin_line(out, number)?;
    push_line(out, line)?;
    end_line(out)
}

// Adds the words of a line, as they stand after its number.
fn push_line(text: &mut Vec<u8>, line: &GatewayLine) -> Result<(), AllocError>
    ensures { OnOk result (text.new.items ≡ text.old.items ++ spaced (gateway_words line.now)) }
{
    match line {
        GatewayLine::Forwarded {
            id,
            freshness,
            sent_id,
            sent_freshness,
            pdu,
        } => {
            push_arrival(text, b"forwarded", *id, *freshness)?;
            push_departure(text, *sent_id, *sent_freshness, pdu)
        }
        GatewayLine::Dropped {
            id,
            freshness,
            refusal,
        } => push_dropped(text, *id, *freshness, refusal),
        GatewayLine::OfNode(told) => push_told(text, told),
    }
}

// Adds a word, the Data ID of an arrival and its freshness.
fn push_arrival(text: &mut Vec<u8>, word: &[u8], id: u16, freshness: u64) -> Result<(), AllocError>
    ensures { OnOk result (text.new.items ≡ text.old.items
        ++ spaced (word.now ∷ encode_lower (bytes_of 2 id) ∷ encode_lower (bytes_of 8 freshness) ∷ [])) }
{
    push_word(text, word)?;
    push_id(text, id)?;
    push_freshness(text, freshness)
}

// Adds the Data ID of a departure, its freshness and its PDU.
fn push_departure(text: &mut Vec<u8>, id: u16, freshness: u64, pdu: &Pdu) -> Result<(), AllocError>
    ensures { OnOk result (text.new.items ≡ text.old.items
        ++ spaced (encode_lower (bytes_of 2 id) ∷ encode_lower (bytes_of 8 freshness) ∷ encode_lower pdu.now ∷ [])) }
{
    push_id(text, id)?;
    push_freshness(text, freshness)?;
    push_hex(text, pdu.bytes())
}

// Adds the words of an arrival that didn't depart.
fn push_dropped(
    text: &mut Vec<u8>,
    id: u16,
    freshness: u64,
    refusal: &Refusal,
) -> Result<(), AllocError>
    ensures { OnOk result (text.new.items
        ≡ text.old.items ++ spaced (gateway_words (Dropped id freshness refusal.now))) }
{
    push_arrival(text, b"dropped", id, freshness)?;
    push_refusal(text, refusal)
}
