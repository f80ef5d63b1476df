//! A key wrapped under another.
ghost use Rattle.std.specs.Prelude.{◌≡◌, ◌≢◌, ◌+◌, ◌*◌, ◌^◌, ℕ, List, IfSome, IfNone};
ghost use Rattle.basics.specs.Blocks.{IsBlock};
ghost use Rattle.basics.specs.Numbers.{number_of, bytes_of};
ghost use Rattle.she_aes.specs.Cipher.{enc, dec};
ghost use Rattle.unit_keys.specs.Wrapped.{wrap_step, wrap_steps, first_register, register_bytes, wrapped};

use basics::Block;
use she_aes::{Schedule, decrypt, encrypt, expand};

// The initial value of RFC 3394, 2.2.3.1.
const INITIAL: u64 = 0xa6a6_a6a6_a6a6_a6a6;

// How many steps there are: six for each half of the key.
const STEPS: u64 = 12;

const HALF: u128 = 0x1_0000_0000_0000_0000;

/// The check value and the two halves of a key between two steps.
#[derive(Clone, Copy, PartialEq, Eq)]
struct Register {
    check: u64,
    first: u64,
    second: u64,
}

// The block of two halves.
fn block_of_halves(high: u64, low: u64) -> Block
    ensures value { result ≡ bytes_of 16 (high * 2 ^ 64 + low) }
    ensures is_block { IsBlock result }
{
    Block::of((u128::from(high) * HALF + u128::from(low)).to_be_bytes())
}

// The number of a block, as its two halves.
fn halves_of(block: &Block) -> (u64, u64)
    ensures number { number_of block.now ≡ result.0 * 2 ^ 64 + result.1 }
    ensures is_block { IsBlock block.now }
{
    let number = u128::from_be_bytes(*block.bytes());
    ((number / HALF) as u64, (number % HALF) as u64)
}

// One step.
#[tactic(auto, unfolding(crate::specs::Wrapped::wrap_step))]
fn step(key: &Schedule, t: u64, register: Register) -> Register
    ensures { result ≡ wrap_step key.now t register }
{
    let (high, low) = halves_of(&encrypt(key, &block_of_halves(register.check, register.first)));
    Register {
        check: high ^ t,
        first: register.second,
        second: low,
    }
}

// The register that the step leads to this one.
fn step_back(key: &Schedule, t: u64, register: Register) -> Register
    ensures { wrap_step key.now t result ≡ register }
{
    let block = block_of_halves(register.check ^ t, register.second);
    let (check, first) = halves_of(&decrypt(key, &block));
    Register {
        check,
        first,
        second: register.first,
    }
}

// The register that so many steps lead to this one.
fn before_steps(key: &Schedule, steps: u64, register: Register) -> Register
    ensures { wrap_steps key.now steps result ≡ register }
{
    if steps == 0 {
        return register;
    }
    before_steps(key, steps - 1, step_back(key, steps, register))
}

// The bytes of the register.
fn text_of(register: Register) -> [u8; 24]
    ensures { result ≡ register_bytes register }
{
    let [a, b, c, d, e, f, g, h] = register.check.to_be_bytes();
    let [i, j, k, l, m, n, o, p] = register.first.to_be_bytes();
    let [q, r, s, t, u, v, w, x] = register.second.to_be_bytes();
    [
        a, b, c, d, e, f, g, h, i, j, k, l, m, n, o, p, q, r, s, t, u, v, w, x,
    ]
}

// The number of eight bytes.
fn half_of(text: &[u8; 8]) -> u64
    ensures { bytes_of 8 result ≡ text.now }
{
    u64::from_be_bytes(*text)
}

// The register with these bytes.
fn register_of(text: &[u8; 24]) -> Register
    ensures { register_bytes result ≡ text.now }
{
    let [
        a,
        b,
        c,
        d,
        e,
        f,
        g,
        h,
        i,
        j,
        k,
        l,
        m,
        n,
        o,
        p,
        q,
        r,
        s,
        t,
        u,
        v,
        w,
        x,
    ] = *text;
    Register {
        check: half_of(&[a, b, c, d, e, f, g, h]),
        first: half_of(&[i, j, k, l, m, n, o, p]),
        second: half_of(&[q, r, s, t, u, v, w, x]),
    }
}

/// Wraps a key of 16 bytes under another: 24 bytes (RFC 3394, 2.2.1).
pub fn wrap(key: &Block, plain: &Block) -> [u8; 24]
    ensures value { result ≡ wrapped key.now plain.now }
{
    let schedule = expand(key);
    let (first, second) = halves_of(plain);
    let mut register = Register {
        check: INITIAL,
        first,
        second,
    };
    for t in 0..STEPS {
        register = step(&schedule, t + 1, register);
    }
    text_of(register)
}

/// The key of 16 bytes that this text wraps under another; `None` if it wraps none (RFC 3394, 2.2.2 and 2.2.3).
pub fn unwrap(key: &Block, text: &[u8; 24]) -> Option<Block>
    ensures some { IfSome result (λ plain. wrapped key.now plain ≡ text.now) }
    ensures is_block { IfSome result IsBlock }
    ensures none { IfNone result ((plain : List ℕ) → IsBlock plain → wrapped key.now plain ≢ text.now) }
{
    let before = before_steps(&expand(key), STEPS, register_of(text));
    if before.check != INITIAL {
        return None;
    }
    Some(block_of_halves(before.first, before.second))
}
