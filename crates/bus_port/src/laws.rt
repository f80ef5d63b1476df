//! Laws of what is appended to a sink: each function has an empty body, and its contract is the law.
ghost use Rattle.std.specs.Prelude.{◌++◌, ℕ, List, []};
ghost use Rattle.bus_port.specs.Sink.{SinkState, Appended};

/// Nothing is appended to a sink to which nothing is done.
pub fn nothing_is_appended()
    ensures { (state : SinkState) → Appended state state [] }
{}

/// What is appended first, and then what is appended next, is appended in one.
pub fn what_is_appended_adds_up()
    ensures { (first before after : SinkState) (some more : List ℕ) → Appended first before some
        → Appended before after more → Appended first after (some ++ more) }
{}
