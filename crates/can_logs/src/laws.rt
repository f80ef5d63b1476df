//! Laws of the definitions: each function has an empty body, and its contract is the law.
ghost use Rattle.std.specs.Prelude.{◌≡◌, List, ℕ, All, Ok};
ghost use Rattle.secured_pdu.specs.Frame.{IsWindow};
ghost use Rattle.can_logs.specs.declared.map_lines.MapLine.{MapLine};
ghost use Rattle.can_logs.specs.WatchMaps.{watch_map_of};

/// The lines of a map have windows of 1 to 256.
pub fn watched_lines_have_windows()
    ensures { (text : List ℕ) (mapping : List MapLine) → watch_map_of text ≡ Ok mapping
        → All (λ l. IsWindow l.window) mapping }
{}
