//! What holds of a widening and an audit together.

ghost use Rattle.rubis_audit.specs.Running.{WidenedAuditStays, WidenedTextReadsBack};

/// What `run_widen` writes for an input whose records are all in the grammar reads back as these records, widened one for
/// one, and `run_audit` says of it, among as many sites as it was widened to, what it says of the input.
pub fn widened_audits_agree()
    ensures reads_back { WidenedTextReadsBack }
    ensures audit { WidenedAuditStays }
{}
