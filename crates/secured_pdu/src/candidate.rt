//! The candidate for the freshness of a received PDU, of which the low bits are sent.
ghost use Rattle.std.specs.Prelude.{◌≡◌, ℕ, ◌+◌, ◌^◌, ◌%◌, ◌≤◌, ◌↔◌, IfNone, IfSome, IsTrue};
ghost use Rattle.secured_pdu.specs.Frame.{IsWindow, TakesBits, AheadWithBits, Ahead};

/// The one freshness that is 1 to `window` above the counter and has this low byte; `None` if there is none, or it
/// would not fit 64 bits. A window is 1 to 256.
pub fn candidate_of(counter: u64, window: u16, low: u8) -> Option<u64>
    requires { IsWindow window }
    ensures none { IfNone result ((v : ℕ) → ¬ Ahead counter window low v) }
    ensures ahead { IfSome result (Ahead counter window low) }
{
    ahead_with_bits(counter, window, 8, u64::from(low))
}

/// The one freshness that is 1 to `window` above the counter and has these low bits, 1 to 64 of them; `None` if there
/// is none, or it would not fit 64 bits. A window has 2^`bits` values at most.
pub fn ahead_with_bits(counter: u64, window: u16, bits: u8, truncated: u64) -> Option<u64>
    requires { TakesBits window bits truncated }
    ensures none { IfNone result ((v : ℕ) → ¬ AheadWithBits counter window bits truncated v) }
    ensures ahead { IfSome result (AheadWithBits counter window bits truncated) }
{
    let less = low_bits(distance(counter, truncated), bits);
    if less >= u64::from(window) {
        return None;
    }
    counter.checked_add(less + 1)
}

/// Whether these are so many bits, 1 to 64, and the window has as many values at most.
pub fn takes_bits(window: u16, bits: u8, truncated: u64) -> bool
    ensures { IsTrue result ↔ TakesBits window bits truncated }
{
    if bits < 1 || bits > 64 {
        return false;
    }
    if low_bits(truncated, bits) != truncated {
        return false;
    }
    let last = u64::from(window).saturating_sub(1);
    low_bits(last, bits) == last
}

// The low bits of a value, 1 to 64 of them.
fn low_bits(value: u64, bits: u8) -> u64
    requires least { 1 ≤ bits }
    requires most { bits ≤ 64 }
    ensures { result ≡ value % 2 ^ bits }
{
    let rest = u32::from(64 - bits);
    (value << rest) >> rest
}

// How far a value is above the counter's successor, modulo 2^64.
fn distance(counter: u64, value: u64) -> u64
    ensures { (counter + 1 + result) % 2 ^ 64 ≡ value }
{
    value.wrapping_sub(counter).wrapping_sub(1)
}
