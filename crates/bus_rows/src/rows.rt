//! Worked runs: some run of the bus has these events, and these lines for them.
ghost use Rattle.bus_rows.specs.Buses.{bus_a, last_bus, bus_with, ended_bus};
ghost use Rattle.bus_rows.specs.LoadRows.{example_loaded};
ghost use Rattle.bus_rows.specs.Mixed.{mixed, HasGoodRun};
ghost use Rattle.bus_rows.specs.ShortRows.{past_the_window, too_far_ahead, receiver_restarted, none_ahead, refused_early, failed_send_old, failed_send_new, failed_key_old, failed_key_new, booted_wrong};
ghost use Rattle.bus_rows.specs.Rows.{HasRun, ordinary, restarted, failed_old, failed_new, refused_cut, last_freshness_used, foreign, boot_decided, updates};

/// Keys are loaded, a PDU is sent and accepted; the same again, and another payload, fail.
pub fn an_ordinary_run()
    ensures { HasRun bus_a ordinary }
{}

/// After a cut a sender goes on above its bound.
pub fn a_sender_starts_at_its_bound()
    ensures { HasRun bus_a restarted }
{}

/// The disk fails while a PDU is accepted, and the cut leaves the old bound: the PDU is accepted then.
pub fn a_failed_call_leaves_the_old_bound()
    ensures { HasRun bus_a failed_old }
{}

/// The disk fails while a PDU is accepted, and the cut leaves the new bound: the PDU is stale then.
pub fn a_failed_call_leaves_the_new_bound()
    ensures { HasRun bus_a failed_new }
{}

/// The disk fails while the node powers up; the next cut is answered.
pub fn a_refused_cut_is_made_again()
    ensures { HasRun bus_a refused_cut }
{}

/// The greatest freshness is sent, and none after it, even after a cut.
pub fn a_counter_ends()
    ensures { HasRun last_bus last_freshness_used }
{}

/// A PDU that no node of the bus sent is accepted by its CMAC alone.
pub fn a_foreign_pdu_is_accepted()
    ensures { HasRun bus_a foreign }
{}

/// Keys by their flags, and a secure boot that is decided once.
pub fn a_boot_is_decided_once()
    ensures { HasRun bus_a boot_decided }
{}

/// Updates are refused for a protected slot, for the wildcard and for a counter that doesn't rise.
pub fn updates_are_refused_in_their_order()
    ensures { HasRun bus_a updates }
{}

/// A receiver with a window of 16 finds a repeated PDU stale: no freshness of its low byte is within the window.
pub fn a_window_ends_what_is_accepted()
    ensures { HasRun (bus_with 1 16) past_the_window }
{}

/// A receiver with a window of 4 accepts what a sender with a reserve of 4 sends after a cut.
pub fn a_window_reaches_a_restarted_sender()
    ensures { HasRun (bus_with 1 4) restarted }
{}

/// With a window of 3 no freshness of its low byte is within the window.
pub fn a_shorter_window_does_not()
    ensures { HasRun (bus_with 1 3) too_far_ahead }
{}

/// After a cut a receiver with a reserve of 4 goes on 3 above what it accepted, and a repeated PDU is stale.
pub fn a_receiver_starts_at_its_bound()
    ensures { HasRun (bus_with 4 256) receiver_restarted }
{}

/// A receiver at the greatest freshness finds none ahead.
pub fn the_last_freshness_has_none_ahead()
    ensures { HasRun ended_bus none_ahead }
{}

/// What is refused before a key is asked for: a frame that nobody sent, a route that is not there, a length.
pub fn frames_routes_and_lengths_come_first()
    ensures { HasRun bus_a refused_early }
{}

/// The disk fails while a PDU is sent, and the cut leaves the old bound: the same freshness is sent then, for the first
/// time.
pub fn a_failed_send_leaves_the_old_bound()
    ensures { HasRun bus_a failed_send_old }
{}

/// The disk fails while a PDU is sent, and the cut leaves the new bound: the sender goes on above it.
pub fn a_failed_send_leaves_the_new_bound()
    ensures { HasRun bus_a failed_send_new }
{}

/// The disk fails while a key is updated, and the cut leaves the old slot, which is empty.
pub fn a_failed_update_leaves_the_old_slot()
    ensures { HasRun bus_a failed_key_old }
{}

/// The disk fails while a key is updated, and the cut leaves the new slot, which serves.
pub fn a_failed_update_leaves_the_new_slot()
    ensures { HasRun bus_a failed_key_new }
{}

/// An image with another boot MAC: the boot is wrong, and a key that needs a good boot stays shut.
pub fn a_wrong_boot_opens_nothing()
    ensures { HasRun bus_a booted_wrong }
{}

/// Sends, acceptances, updates, a failure and a cut with either choice: each of the four theorems is computed to hold.
pub fn the_four_hold_of_a_mixed_run()
    ensures { HasGoodRun bus_a mixed }
{}

/// The example of the SHE specification is loaded once; other updates are refused for their slots, an empty authorising
/// slot, and the MAC of another key.
pub fn the_example_is_loaded_once()
    ensures { HasRun bus_a example_loaded }
{}
