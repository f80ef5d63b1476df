//! Which calls of a disk are to fail.
ghost use Rattle.std.specs.Prelude.{◌≡◌, ◌≤◌, not, is_ok};
ghost use Rattle.cut_disk.specs.Arming.{no_arms, stops_next, stop_after, rearmed, fails_next, fail_after, fails, after_call, after_cut, with_stop, with_fail};
ghost use Rattle.cut_disk.specs.Memory.{faults_after};

use crate::DiskFailed;
use basics::count_fault;

/// A stop, from which on every call fails until the power is cut.
#[derive(Clone, Copy, Drop)]
pub enum StopState {
    Clear,
    /// It begins with the call of this number, counted from now.
    Armed(u64),
    Begun,
}

impl StopState {
    fn stops_next(self) -> bool
        ensures { result ≡ stops_next self }
    {
        match self {
            StopState::Clear => false,
            StopState::Armed(calls) => calls <= 1,
            StopState::Begun => true,
        }
    }

    fn after_call(self) -> StopState
        ensures { result ≡ stop_after self }
    {
        match self {
            StopState::Clear => StopState::Clear,
            StopState::Armed(calls) => {
                if calls <= 1 {
                    StopState::Begun
                } else {
                    StopState::Armed(calls - 1)
                }
            }
            StopState::Begun => StopState::Begun,
        }
    }

    fn rearmed(self, calls: u64) -> StopState
        ensures { result ≡ rearmed calls self }
    {
        match self {
            StopState::Begun => StopState::Begun,
            _ => StopState::Armed(calls),
        }
    }
}

fn fails_next(fail: Option<u64>) -> bool
    ensures { result ≡ fails_next fail }
{
    match fail {
        None => false,
        Some(calls) => calls <= 1,
    }
}

fn fail_after(fail: Option<u64>) -> Option<u64>
    ensures { result ≡ fail_after fail }
{
    match fail {
        None => None,
        Some(calls) => { if calls <= 1 { None } else { Some(calls - 1) } }
    }
}

/// Which calls are to fail. Both arms count every read, write and sync, whatever makes it fail.
#[derive(Clone, Copy, Drop)]
pub struct Arms {
    stop: StopState,
    /// The number, counted from now, of the one call that is to fail.
    fail: Option<u64>,
}

impl Arms {
    pub fn none() -> Arms
        ensures { result ≡ no_arms }
    {
        Arms {
            stop: StopState::Clear,
            fail: None,
        }
    }

    /// Counts one call, and says whether it is to fail.
    pub fn count(&mut self) -> bool
        ensures fails { result ≡ fails self.old }
        ensures later { self.new ≡ after_call self.old }
    {
        let fails = self.stop.stops_next() || fails_next(self.fail);
        *self = Arms {
            stop: self.stop.after_call(),
            fail: fail_after(self.fail),
        };
        fails
    }

    pub fn cut(&mut self)
        ensures { self.new ≡ after_cut self.old }
    {
        self.stop = StopState::Clear;
    }

    pub fn stop_at(&mut self, calls: u64)
        ensures { self.new ≡ with_stop calls self.old }
    {
        self.stop = self.stop.rearmed(calls);
    }

    pub fn fail_at(&mut self, calls: u64)
        ensures { self.new ≡ with_fail calls self.old }
    {
        self.fail = Some(calls);
    }
}

/// Counts one call of a disk. If it is to fail, the count of faults rises, or stands at its last value.
pub fn count_call(arms: &mut Arms, faults: &mut u64) -> Result<(), DiskFailed>
    ensures ok { is_ok result ≡ not (fails arms.old) }
    ensures arms { arms.new ≡ after_call arms.old }
    ensures faults { faults.new ≡ faults_after arms.old faults.old }
{
    if arms.count() {
        count_fault(faults);
        return Err(DiskFailed);
    }
    Ok(())
}
