//! Laws of the definitions: each function has an empty body, and its contract is the law.
ghost use Rattle.std.specs.Prelude.{◌≡◌, ℕ, ◌<◌, ◌≤◌, ◌^◌, ◌%◌, List};
ghost use Rattle.secured_pdu.specs.Frame.{authenticated_input, IsFrame, IsWindow, Secured, Ahead};
ghost use Rattle.secured_pdu.specs.Verdict.{Outcome, Accepted, Verdict};

/// The authenticated input is that of one Data ID, one payload and one freshness.
pub fn input_is_one_to_one()
    ensures { (id id' : ℕ) (payload payload' : List ℕ) (freshness freshness' : ℕ)
        → id < 2 ^ 16 → id' < 2 ^ 16 → freshness < 2 ^ 64 → freshness' < 2 ^ 64
        → authenticated_input id payload freshness ≡ authenticated_input id' payload' freshness'
        → (id ≡ id') × (payload ≡ payload') × (freshness ≡ freshness') }
{}

/// At most one freshness with a given low byte is ahead of a counter.
pub fn one_freshness_is_ahead()
    ensures { (counter window low u v : ℕ) → IsWindow window → Ahead counter window low u → Ahead counter window low v
        → u ≡ v }
{}

/// At most one frame is the Secured I-PDU of a payload and a freshness.
pub fn one_frame_is_secured()
    ensures { (key : List ℕ) (id : ℕ) (payload : List ℕ) (freshness : ℕ) (frame frame' : List ℕ)
        → Secured key id payload freshness frame → Secured key id payload freshness frame' → frame ≡ frame' }
{}

/// A Secured I-PDU has 5 to 64 bytes.
pub fn a_secured_frame_is_a_frame()
    ensures { (key : List ℕ) (id : ℕ) (payload : List ℕ) (freshness : ℕ) (frame : List ℕ)
        → Secured key id payload freshness frame → IsFrame frame }
{}

/// At most one verdict on a frame holds.
pub fn one_verdict_holds()
    ensures { (key : List ℕ) (id counter window : ℕ) (frame : List ℕ) (outcome outcome' : Outcome) → IsWindow window
        → Verdict key id counter window frame outcome → Verdict key id counter window frame outcome'
        → outcome ≡ outcome' }
{}

/// On every frame of 5 to 64 bytes a verdict holds.
pub fn a_verdict_holds()
    ensures { (key : List ℕ) (id counter window : ℕ) (frame : List ℕ) → IsWindow window → IsFrame frame
        → (outcome : Outcome) × Verdict key id counter window frame outcome }
{}

/// A Secured I-PDU whose freshness is ahead is accepted, with its payload and its freshness.
pub fn secured_frame_is_accepted()
    ensures { (key : List ℕ) (id counter window : ℕ) (payload : List ℕ) (freshness : ℕ) (frame : List ℕ)
        → Secured key id payload freshness frame → Ahead counter window (freshness % 256) freshness
        → Verdict key id counter window frame (Accepted payload freshness) }
{}

/// What is accepted with a window is accepted, with the same freshness, with every larger one.
pub fn a_larger_window_accepts_the_same()
    ensures { (key : List ℕ) (id counter window larger : ℕ) (frame payload : List ℕ) (freshness : ℕ) → window ≤ larger
        → Verdict key id counter window frame (Accepted payload freshness)
        → Verdict key id counter larger frame (Accepted payload freshness) }
{}
