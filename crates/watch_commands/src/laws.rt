//! Laws of the definitions: each function has an empty body, and its contract is the law.
ghost use Rattle.std.specs.Prelude.{◌≡◌, List, ℕ, map, All};
ghost use Rattle.secured_pdu.specs.Frame.{IsWindow};
ghost use Rattle.secoc_words.specs.Counting.{AcceptedRise};
ghost use Rattle.can_logs.specs.declared.map_lines.MapLine.{MapLine};
ghost use Rattle.can_logs.specs.Findings.{finding_accepts};
ghost use Rattle.watch_commands.specs.Watching.{Found, findings_of, WatchesEach};

/// Of two frames that the same line of the map accepts, the later has the greater freshness.
pub fn accepted_freshness_rises_per_watched_line()
    ensures { (mapping : List MapLine) (lines : List (List ℕ)) (findings : List Found)
        → WatchesEach mapping lines findings → AcceptedRise (map finding_accepts (findings_of findings)) }
{}

/// Of the lines of a log at most one list of findings is found: so there is one text for all ways in which its bytes
/// are cut into pieces.
pub fn one_watch_holds()
    ensures { (mapping : List MapLine) (lines : List (List ℕ)) (findings findings' : List Found)
        → All (λ l. IsWindow l.window) mapping
        → WatchesEach mapping lines findings → WatchesEach mapping lines findings' → findings ≡ findings' }
{}
