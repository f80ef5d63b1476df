//! Breaches, written out: what an honest reader would call one, the theorem's definition refuses.
ghost use Rattle.bus_rows.specs.Breaches.{ReplayIsNoRising, RestartIsNoSingle, OtherCmacIsNoAuthentic, UndoneIsNoKept, ReturnIsNoSettled};

/// A PDU that is accepted twice doesn't rise.
pub fn a_replayed_pdu_is_no_rising_run()
    ensures { ReplayIsNoRising }
{}

/// A sender that begins again below what it sent isn't single.
pub fn a_restarted_sender_is_no_single_run()
    ensures { RestartIsNoSingle }
{}

/// A PDU that is accepted with the CMAC of another payload isn't authentic.
pub fn a_pdu_with_another_cmac_is_no_authentic_run()
    ensures { OtherCmacIsNoAuthentic }
{}

/// An acknowledged update that is gone after a cut isn't kept.
pub fn an_undone_update_is_no_run_that_keeps_keys()
    ensures { UndoneIsNoKept }
{}

/// An update that the disk dropped at a power-up comes back at a later one.
pub fn an_update_that_returns_is_no_settled_run()
    ensures { ReturnIsNoSettled }
{}
