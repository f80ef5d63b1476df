//! Laws of the definitions: each function has an empty body, and its contract is the law.
ghost use Rattle.std.specs.Prelude.{◌≡◌, ℕ, List, map, All, Ok};
ghost use Rattle.secured_pdu.specs.Frame.{IsWindow};
ghost use Rattle.secoc_words.specs.Counting.{AcceptedRise};
ghost use Rattle.text_lines.specs.Lines.{TextLine};
ghost use Rattle.can_logs.specs.declared.map_lines.MapLine.{MapLine};
ghost use Rattle.trace_audit.specs.AuditMaps.{map_of};
ghost use Rattle.can_logs.specs.Findings.{Finding, finding_accepts};
ghost use Rattle.trace_audit.specs.Auditing.{AuditsEach};

/// Of two frames that the same line of the map accepts, the later has the greater freshness.
pub fn accepted_freshness_rises_per_map_line()
    ensures { (mapping : List MapLine) (lines : List TextLine) (findings : List Finding)
        → AuditsEach mapping lines findings → AcceptedRise (map finding_accepts findings) }
{}

/// The lines of a map have windows of 1 to 256.
pub fn audited_lines_have_windows()
    ensures { (text : List ℕ) (mapping : List MapLine) → map_of text ≡ Ok mapping
        → All (λ l. IsWindow l.window) mapping }
{}

/// Of the lines of a log at most one list of findings is found.
pub fn one_audit_holds()
    ensures { (mapping : List MapLine) (lines : List TextLine) (findings findings' : List Finding)
        → All (λ l. IsWindow l.window) mapping
        → AuditsEach mapping lines findings → AuditsEach mapping lines findings' → findings ≡ findings' }
{}
