//! MACs and ciphers under the keys of the slots.
ghost use Rattle.std.specs.Prelude.{◌≡◌, ◌≤◌, ◌↔◌, IsTrue, IfOk, length, take};
ghost use Rattle.std.specs.Result.{result_err};
ghost use Rattle.she_aes.specs.Modes.{ecb, ecb_inverse, cbc, cbc_inverse};
ghost use Rattle.she_cmac.specs.Cmac.{cmac as mac_under};
ghost use Rattle.key_slots.specs.Slots.{slot_at};
ghost use Rattle.key_slots.specs.Usage.{usable};
ghost use Rattle.memory_update.specs.Loading.{key_in};
ghost use Rattle.secure_boot.specs.Booting.{is_good};

use crate::engine::Engine;
use key_slots::{Erc, Purpose, SlotId};
use she_aes::{Block, cbc_decrypt, cbc_encrypt, ecb_decrypt, ecb_encrypt};
use she_cmac::cmac;

impl Engine {
    /// The CMAC of the message (NIST SP 800-38B) under the key that the slot holds now.
    pub fn generate_mac(&self, slot: SlotId, message: &[u8]) -> Result<Block, Erc>
        ensures refusal { result_err result ≡ usable self.now.slots slot (is_good self.now.boot) Purpose.Mac }
        ensures mac { IfOk result (λ mac. mac ≡ mac_under (key_in (slot_at self.now.slots slot)) message.now) }
    {
        let schedule = self.key_for(slot, Purpose::Mac)?;
        Ok(cmac(schedule, message))
    }

    /// Whether the tag, of 1 to 16 bytes, is the first bytes of the message's CMAC under the key that the slot holds
    /// now.
    pub fn verify_mac(&self, slot: SlotId, message: &[u8], tag: &[u8]) -> Result<bool, Erc>
        requires { (1 ≤ length tag.now) × (length tag.now ≤ 16) }
        ensures refusal { result_err result ≡ usable self.now.slots slot (is_good self.now.boot) Purpose.Mac }
        ensures verdict { IfOk result (λ good. IsTrue good
            ↔ (tag.now ≡ take (length tag.now) (mac_under (key_in (slot_at self.now.slots slot)) message.now))) }
    {
        let mac = self.generate_mac(slot, message)?;
        Ok(tag == &mac.as_slice()[..tag.len()])
    }

    /// The blocks encrypted in CBC (NIST SP 800-38A, section 6.2) under the key that the slot holds now.
    pub fn encrypt_cbc<const N: usize>(
        &self,
        slot: SlotId,
        iv: &Block,
        text: &[Block; N],
    ) -> Result<[Block; N], Erc>
        ensures refusal { result_err result ≡ usable self.now.slots slot (is_good self.now.boot) Purpose.Cipher }
        ensures text { IfOk result (λ out. out ≡ cbc (key_in (slot_at self.now.slots slot)) iv.now text.now) }
    {
        let schedule = self.key_for(slot, Purpose::Cipher)?;
        Ok(cbc_encrypt(schedule, iv, text))
    }

    /// The blocks decrypted in CBC (section 6.2) under the key that the slot holds now.
    pub fn decrypt_cbc<const N: usize>(
        &self,
        slot: SlotId,
        iv: &Block,
        text: &[Block; N],
    ) -> Result<[Block; N], Erc>
        ensures refusal { result_err result ≡ usable self.now.slots slot (is_good self.now.boot) Purpose.Cipher }
        ensures text { IfOk result (λ out. out ≡ cbc_inverse (key_in (slot_at self.now.slots slot)) iv.now text.now) }
    {
        let schedule = self.key_for(slot, Purpose::Cipher)?;
        Ok(cbc_decrypt(schedule, iv, text))
    }

    /// The blocks encrypted in ECB (section 6.1) under the key that the slot holds now.
    pub fn encrypt_ecb<const N: usize>(
        &self,
        slot: SlotId,
        text: &[Block; N],
    ) -> Result<[Block; N], Erc>
        ensures refusal { result_err result ≡ usable self.now.slots slot (is_good self.now.boot) Purpose.Cipher }
        ensures text { IfOk result (λ out. out ≡ ecb (key_in (slot_at self.now.slots slot)) text.now) }
    {
        let schedule = self.key_for(slot, Purpose::Cipher)?;
        Ok(ecb_encrypt(schedule, text))
    }

    /// The blocks decrypted in ECB (section 6.1) under the key that the slot holds now.
    pub fn decrypt_ecb<const N: usize>(
        &self,
        slot: SlotId,
        text: &[Block; N],
    ) -> Result<[Block; N], Erc>
        ensures refusal { result_err result ≡ usable self.now.slots slot (is_good self.now.boot) Purpose.Cipher }
        ensures text { IfOk result (λ out. out ≡ ecb_inverse (key_in (slot_at self.now.slots slot)) text.now) }
    {
        let schedule = self.key_for(slot, Purpose::Cipher)?;
        Ok(ecb_decrypt(schedule, text))
    }
}
