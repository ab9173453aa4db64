ghost use Rattle.std.specs.Prelude.{◌≡◌, ℕ, List, true, false};
ghost use Rattle.std.specs.List.{list_all};
ghost use Rattle.snow_flake.specs.Model.Rule.{Answer};
ghost use Rattle.snow_chain.specs.Model.Chain.{Rules};
ghost use Rattle.snow_wire.specs.Model.Frame.{frames_of};
ghost use Rattle.snow_engine.specs.Model.Run.{Fresh, after_frame, after_frames, seen};
ghost use Rattle.snow_engine.specs.declared.engine.Task.TheVariants as task;
ghost use Rattle.snow_audit.specs.Model.Auditing.{audit_of};
ghost use Rattle.snow_audit.specs.Laws.OwnLines.{fits, is_difference, is_event, recording};

/// A run that is recorded with its own lines behind each event never differs, where no event is
/// itself a Line event and each line of the run fits one.
/// Rule: this project's own.
pub fn audit_law()
    ensures { (rules : Rules) (answer : Answer) (payloads : List (List ℕ)) (bytes : List ℕ)
        → list_all is_event payloads ≡ true
        → list_all fits (after_frames rules answer task.Run Fresh 1 payloads).0 ≡ true
        → (frames_of (seen bytes)).0 ≡ recording (after_frame rules answer task.Run) Fresh 1 payloads
        → is_difference (audit_of rules answer bytes) ≡ false }
{}
