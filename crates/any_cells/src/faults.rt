// The texts of a store's faults.
ghost use Rattle.std.specs.Prelude.{◌≡◌, string_bytes, IfOk};
ghost use Rattle.any_cells.specs.FaultTexts.{store_fault_text};

use cell_store::StoreFault;
use std::alloc::{AllocError, Global};

/// The text of a store's fault that has no number, between these literals: `"store: ", DiskFailed, "\n"` is one fixed
/// text, so that telling it takes no memory.
#[macro_export]
macro_rules! fixed_fault_text {
    ($($before:literal,)* DiskFailed $(, $after:literal)*) => {
        concat!($($before,)* "DiskFailed" $(, $after)*)
    };
    ($($before:literal,)* NotFormatted $(, $after:literal)*) => {
        concat!($($before,)* "NotFormatted" $(, $after)*)
    };
    ($($before:literal,)* TooSmall $(, $after:literal)*) => {
        concat!($($before,)* "TooSmall" $(, $after)*)
    };
}

/// The text of a store's fault, as programs print it after `store: `.
pub fn store_fault_text(alloc: Global, fault: StoreFault) -> Result<String, AllocError>
    ensures { IfOk result (λ text. string_bytes text ≡ store_fault_text fault) }
{
    match fault {
        StoreFault::DiskFailed => String::from_str(alloc, fixed_fault_text!(DiskFailed)),
        StoreFault::NotFormatted => String::from_str(alloc, fixed_fault_text!(NotFormatted)),
        StoreFault::Damaged(number) => format!(in alloc; "Damaged {number}"),
        StoreFault::TooSmall => String::from_str(alloc, fixed_fault_text!(TooSmall)),
        StoreFault::Memory => String::from_str(alloc, "Memory"),
    }
}
