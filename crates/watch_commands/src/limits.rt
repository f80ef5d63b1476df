//! What a log may have at most if it is to pass.
ghost use Rattle.std.specs.Prelude.{◌≡◌, ◌≤◌};
ghost use Rattle.watch_commands.specs.Limits.{no_limits, limit_over, limit_reached, is_within, share_of};

/// What a log may have at most. What has no limit may be any number.
#[derive(Clone, Copy, Debug)]
pub struct Limits {
    /// Values of freshness that a line of the map missed.
    pub missed: Option<u64>,
    /// Their share of all values above the map's and up to the last one, in percent, rounded up.
    pub missed_share: Option<u64>,
    /// Lines that are malformed.
    pub malformed: Option<u64>,
    /// Data frames that no line of the map hears.
    pub unmapped: Option<u64>,
    /// Microseconds in which a line of the map that isn't optional accepted nothing: as many are too many.
    pub silent: Option<u64>,
}

impl Limits {
    /// None.
    pub fn none() -> Limits
        ensures { result ≡ no_limits }
    {
        Limits {
            missed: None,
            missed_share: None,
            malformed: None,
            unmapped: None,
            silent: None,
        }
    }
}

/// The limit that a number is more than, if it is.
pub fn limit_over(limit: Option<u64>, number: u64) -> Option<u64>
    ensures { result ≡ limit_over limit number }
{
    match limit {
        Some(most) => { if most < number { Some(most) } else { None } }
        None => None,
    }
}

/// The limit that a time reaches, if it does.
pub fn limit_reached(limit: Option<u64>, time: u64) -> Option<u64>
    ensures { result ≡ limit_reached limit time }
{
    match limit {
        Some(least) => { if time < least { None } else { Some(least) } }
        None => None,
    }
}

/// Whether a number is no more than it may be.
pub fn is_within(limit: Option<u64>, number: u64) -> bool
    ensures { result ≡ is_within limit number }
{
    limit_over(limit, number).is_none()
}

/// A part of so many as a share in percent, rounded up; 0 of none.
pub fn share_of(part: u64, whole: u64) -> u64
    requires { part ≤ whole }
    ensures { result ≡ share_of part whole }
{
    if whole == 0 {
        return 0;
    }
    let whole = u128::from(whole);
    ((u128::from(part) * 100 + (whole - 1)) / whole) as u64
}
