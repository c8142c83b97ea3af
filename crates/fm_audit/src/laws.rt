//! What holds of the verdicts on all records. This function does nothing: the law is its contract.

ghost use Rattle.std.specs.Prelude.{◌≡◌, ℕ, List, Option};
ghost use Rattle.fm_core.specs.State.{Setting, State};
ghost use Rattle.fm_audit.specs.Verdict.{Judged};
ghost use Rattle.fm_audit.specs.declared.fault.AuditFault.{AuditFault};

/// The bytes of a run's steps have one verdict: they are a run to its end, or they have one first
/// fault.
pub fn records_have_one_verdict()
    ensures { (g : Setting) (h : State) (bytes : List ℕ) (one other : Option AuditFault)
        → Judged g h bytes one → Judged g h bytes other → one ≡ other }
{}
