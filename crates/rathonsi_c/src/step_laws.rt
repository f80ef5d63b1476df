//! What ties calls together: each function has an empty body, and its contract is the law.
ghost use Rattle.std.specs.Prelude.{◌≡◌, ◌≢◌, ◌+◌, ◌*◌, ◌%◌, ◌^◌, ◌<◌, ℕ, List, length, take, replicate, pos};
ghost use Rattle.she_cmac.specs.Cmac.{cmac};
ghost use Rattle.freshness_routes.specs.declared.routes.Direction.TheVariants.{Receives};
ghost use Rattle.secured_pdu.specs.Frame.{IsPayload};
ghost use Rattle.store_plan.specs.Plans.{IsEmptyPlan};
ghost use Rattle.rathonsi_c.specs.Images.{ImageKey};
ghost use Rattle.rathonsi_c.specs.Routes.{IsOpened, RouteReady, SentBy, ReceiveAnswers, is_booted};
ghost use Rattle.rathonsi_c.specs.Steps.{InputOf, SentWith, CandidateOf, ReceiveMacAnswers};
ghost use Rattle.rathonsi_c.specs.Opening.{route_of, OpensRoutes};
ghost use Rattle.rathonsi_c.specs.Lives.{Memory, PoweredUp};
ghost use Rattle.rathonsi_c.specs.declared.TheConstants.{OK, BAD_LENGTH, BAD_VALUE, FRESHNESS_FAILURE};
ghost use Rattle.rathonsi_c.specs.declared.TheConstants.{VERIFICATION_FAILURE, BAD_ID, BAD_MAC, NO_STORE, DAMAGED};
ghost use Rattle.rathonsi_c.specs.declared.TheConstants.{BUSY, RESERVE, EXHAUSTED, KEY_EMPTY, KEY_INVALID, KEY_NOT_AVAILABLE};
ghost use Rattle.rathonsi_c.specs.declared.TheConstants.{KEY_WRITE_PROTECTED, KEY_UPDATE_ERROR, WRONG_CELL, FAILED};
ghost use Rattle.rathonsi_c.specs.declared.TheConstants.{DUPLICATE_ID, STALE_PLAN, COVERED};
ghost use Rattle.rathonsi_c.specs.declared.opened.TheConstants.{CHECK_PRIME};
ghost use Rattle.rathonsi_c.specs.declared.states.TheConstants.{VERSION};
ghost use Rattle.rathonsi_c.specs.declared.route.RathonsiRoute.{RathonsiRoute};
ghost use Rattle.rathonsi_c.specs.declared.secoc.RathonsiVerdict.{RathonsiVerdict};
ghost use Rattle.rathonsi_c.specs.declared.steps.RathonsiInput.{RathonsiInput};

/// A caller whose routes `rathonsi_routes_open` opened over its image, with nothing planned, is one of whom the laws
/// over all lives speak.
pub fn routes_that_were_opened_are_powered_up()
    ensures { (routes opened : List RathonsiRoute) (a : Memory) → OpensRoutes routes a.image opened → IsEmptyPlan a.plan
        → ((k : ℕ) → a.routes k ≡ route_of opened k) → PoweredUp (length opened) a }
{}

/// A send in one step is one in two steps with the CMAC of the input under the key of the slot.
pub fn a_send_is_two_steps()
    ensures { (r : RathonsiRoute) (image payload key pdu : List ℕ) (input : RathonsiInput) → IsPayload payload
        → ImageKey image r.slot (is_booted r) key → InputOf r.data_id payload (r.counter + 1) input
        → SentWith r payload (cmac key (take input.size input.bytes)) pdu → SentBy r image payload pdu }
{}

/// So is a receive: both give the same verdict.
pub fn a_receive_is_two_steps()
    ensures { (r : RathonsiRoute) (image pdu key : List ℕ) (bound : ℕ) (input : RathonsiInput)
        (one two : RathonsiVerdict) → RouteReady r Receives image key bound → CandidateOf r pdu input
        → ReceiveAnswers r image pdu one
        → ReceiveMacAnswers r image pdu input (cmac key (take input.size input.bytes)) two → one ≡ two }
{}

/// An open route isn't open any more if its counter, Data ID, direction, cell or mark alone is set by hand to another value;
/// of the counter, to one that isn't a multiple of 16,777,213 away. No open route has a check value of zeros.
pub fn an_open_route_that_was_changed_is_not_open()
    ensures counter { (r : RathonsiRoute) (counter : ℕ) → IsOpened r → IsOpened (record r { counter = counter })
        → counter % CHECK_PRIME ≡ r.counter % CHECK_PRIME }
    ensures data_id { (r : RathonsiRoute) (id : ℕ) → r.data_id < 2 ^ 16 → id < 2 ^ 16 → IsOpened r
        → IsOpened (record r { data_id = id }) → id ≡ r.data_id }
    ensures direction { (r : RathonsiRoute) (direction : ℕ) → r.direction < 2 ^ 8 → direction < 2 ^ 8 → IsOpened r
        → IsOpened (record r { direction = direction }) → direction ≡ r.direction }
    ensures cell { (r : RathonsiRoute) (cell : ℕ) → r.cell < 2 ^ 16 → cell < 2 ^ 16 → IsOpened r
        → IsOpened (record r { cell = cell }) → cell ≡ r.cell }
    ensures mark { (r : RathonsiRoute) (mark : ℕ) → r.opened < 2 ^ 8 → mark < 2 ^ 8 → IsOpened r
        → IsOpened (record r { opened = mark }) → mark ≡ r.opened }
    ensures zeros { (r : RathonsiRoute) → IsOpened r → r.check ≢ replicate 3 0 }
{}

/// The numbers of the statuses, as the headers have them.
pub fn each_status_has_its_number()
    ensures ok { OK ≡ pos 0 }
    ensures bad_length { BAD_LENGTH ≡ pos 1 }
    ensures bad_value { BAD_VALUE ≡ pos 2 }
    ensures freshness_failure { FRESHNESS_FAILURE ≡ pos 3 }
    ensures verification_failure { VERIFICATION_FAILURE ≡ pos 4 }
    ensures bad_id { BAD_ID ≡ pos 5 }
    ensures bad_mac { BAD_MAC ≡ pos 6 }
    ensures no_store { NO_STORE ≡ pos 7 }
    ensures damaged { DAMAGED ≡ pos 8 }
    ensures busy { BUSY ≡ pos 9 }
    ensures reserve { RESERVE ≡ pos 10 }
    ensures exhausted { EXHAUSTED ≡ pos 11 }
    ensures key_empty { KEY_EMPTY ≡ pos 12 }
    ensures key_invalid { KEY_INVALID ≡ pos 13 }
    ensures key_not_available { KEY_NOT_AVAILABLE ≡ pos 14 }
    ensures key_write_protected { KEY_WRITE_PROTECTED ≡ pos 15 }
    ensures key_update_error { KEY_UPDATE_ERROR ≡ pos 16 }
    ensures wrong_cell { WRONG_CELL ≡ pos 17 }
    ensures failed { FAILED ≡ pos 18 }
    ensures duplicate_id { DUPLICATE_ID ≡ pos 19 }
    ensures stale_plan { STALE_PLAN ≡ pos 20 }
    ensures covered { COVERED ≡ pos 21 }
{}

/// The number of the version, as `rathonsi.h` has it: major, minor and patch, a byte each.
pub fn the_version_has_its_number()
    ensures { VERSION ≡ 0 * 2 ^ 16 + 20 * 2 ^ 8 + 0 }
{}
