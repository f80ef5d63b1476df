//! Who enters rows, and when.
ghost use Rattle.std.specs.Prelude.{◌≡◌, IfOk};
ghost use Rattle.ledger_tables.specs.Adding.{origin_by};
ghost use Rattle.ledger_shift.specs.Statuses.{nobody as no_origin};

use std::alloc::{AllocError, Global};
use std::marker::Model;

/// Who enters rows, and when, as a line of the script says it.
#[derive(Debug, Drop)]
pub struct Origin {
    station: String,
    operator: String,
    time: String,
}

impl Model for Origin {
    ghost use Rattle.std.specs.Prelude.{string_bytes};
    ghost use Rattle.ledger_rows.specs.Rows.{RowOrigin};

    ghost Value = { RowOrigin };

    ghost view = { λ o. record { station = string_bytes o.station; operator = string_bytes o.operator; time = string_bytes o.time } };
}

impl Origin {
    /// Nobody is named yet.
    pub(crate) fn nobody(alloc: Global) -> Origin
        ensures { result ≡ no_origin }
    {
        Origin {
            station: String::new(alloc),
            operator: String::new(alloc),
            time: String::new(alloc),
        }
    }

    /// These texts.
    pub(crate) fn of(
        alloc: Global,
        station: &str,
        operator: &str,
        time: &str,
    ) -> Result<Origin, AllocError>
        ensures { IfOk result (λ origin. origin ≡ origin_by station.now operator.now time.now) }
    {
        Ok(Origin {
            station: String::from_str(alloc, station)?,
            operator: String::from_str(alloc, operator)?,
            time: String::from_str(alloc, time)?,
        })
    }

    /// The station.
    pub(crate) fn station(&self) -> &str
        ensures { result.now ≡ self.now.station }
    {
        self.station.as_str()
    }

    /// The operator.
    pub(crate) fn operator(&self) -> &str
        ensures { result.now ≡ self.now.operator }
    {
        self.operator.as_str()
    }

    /// The time.
    pub(crate) fn time(&self) -> &str
        ensures { result.now ≡ self.now.time }
    {
        self.time.as_str()
    }
}
