//! Worked runs of the exchange, on which the gate computes the definitions (docs/EXCHANGE.md,
//! "Runs"). Each run in `specs/` is what an independent program, written from the same rules, gave
//! for a script; for each step the posts are exactly what was due, what happened is what the script
//! gives, and only that was noted which may be.
#![tactic(auto)]

ghost use Rattle.std.specs.Prelude.{◌≡◌, [], ◌∷◌, codes};
ghost use Rattle.worked_traces.specs.Information.{run as information_run};
ghost use Rattle.worked_traces.specs.Upload.{run as upload_run};
ghost use Rattle.worked_traces.specs.Losses.{run as losses_run};
ghost use Rattle.worked_traces.specs.Repeats.{run as repeats_run};
ghost use Rattle.worked_traces.specs.InjectedError.{run as injected_error_run};
ghost use Rattle.worked_traces.specs.InjectedRequest.{run as injected_request_run};
ghost use Rattle.worked_traces.specs.Options.{run as options_run};
ghost use Rattle.worked_traces.specs.GivesUp.{run as gives_up_run};
ghost use Rattle.worked_traces.specs.Boots.{run as boots_run};
ghost use Rattle.worked_traces.specs.OtherHardware.{run as other_hardware_run};
ghost use Rattle.worked_traces.specs.TwoUploads.{run as two_uploads_run};
ghost use Rattle.worked_traces.specs.OtherType.{run as other_type_run};
ghost use Rattle.worked_traces.specs.OldLayout.{run as old_layout_run};
ghost use Rattle.worked_traces.specs.Walks.{first_steps, IsWorked, parts_after, steps_in};
ghost use Rattle.replay_rules.specs.FaultFree.{IsFaultFree};
ghost use Rattle.replay_rules.specs.Promises.{OnlyFinishIsLeft};
ghost use Rattle.replay_rules.specs.Runs.{IsWithinMargin};
ghost use Rattle.session_rules.specs.declared.outcome.Outcome.TheVariants.{Completed, GaveUp};
ghost use Rattle.session_rules.specs.declared.outcome.Outcome.TheVariants.{PeerError, Replaced};
ghost use Rattle.session_rules.specs.declared.outcome.Outcome.TheVariants.{TargetStopped};

use load_header::header_laws;

/// An information session.
pub fn information()
    ensures { IsWorked information_run [] (Completed ∷ []) 1 }
{}

/// An upload of one load.
pub fn upload()
    ensures { IsWorked upload_run [] (Completed ∷ []) 2 }
{}

/// It is a fault-free run: its load is good, and the target's session ends by the acknowledgement
/// of its last LUS.
pub fn upload_is_fault_free()
    ensures { IsFaultFree upload_run.setting (steps_in upload_run) }
{
    // For the proof: does nothing.
    header_laws();
}

/// An upload in which datagrams are lost and come late.
pub fn losses()
    ensures { IsWorked losses_run [] (Completed ∷ []) 2 }
{}

/// Before its last line `finish`, that run is fault-free too, and within the margin.
pub fn losses_are_fault_free()
    ensures free { IsFaultFree losses_run.setting (first_steps 21 losses_run) }
    ensures margin { IsWithinMargin losses_run.setting (first_steps 21 losses_run) }
    ensures left { OnlyFinishIsLeft losses_run.setting losses_run.script (first_steps 21
        losses_run) }
{
    // For the proof: does nothing.
    header_laws();
}

/// An upload in which datagrams come again, of the live and of the kept transfer, and requests when
/// no transfer is live.
pub fn repeats()
    ensures { IsWorked repeats_run [] (Completed ∷ []) 2 }
{}

/// An ERROR that nobody posted ends an information session.
pub fn injected_error()
    ensures { IsWorked injected_error_run [] (PeerError 3 ∷ []) 1 }
{}

/// A request that nobody posted begins a session of the target.
pub fn injected_request()
    ensures { IsWorked injected_request_run [] ([]) 1 }
{}

/// An upload with blocks of 16 bytes, with a repeat and a loss.
pub fn options()
    ensures { IsWorked options_run [] (Completed ∷ []) 2 }
{}

/// A session is replaced, and the next one given up.
pub fn gives_up()
    ensures { IsWorked gives_up_run (1 ∷ 2 ∷ 3 ∷ 4 ∷ 5 ∷ 6 ∷ 7 ∷ []) (GaveUp ∷ Replaced ∷ []) 1 }
{}

/// Losses of power and boots before and within an upload.
pub fn boots()
    ensures { IsWorked boots_run [] (Completed ∷ Replaced ∷ []) 2 }
{}

/// An upload that is stopped, since its load is for other hardware.
pub fn other_hardware()
    ensures { IsWorked other_hardware_run [] (TargetStopped (codes "A4") ∷ []) 1 }
{}

/// Two uploads, of which the second keeps what the first installed, behind its own load.
pub fn two_uploads()
    ensures worked { IsWorked two_uploads_run [] (Completed ∷ Completed ∷ []) 3 }
    ensures parts { parts_after two_uploads_run
        ≡ codes "ABC42-0000-0002" ∷ codes "ABC41-0000-0001" ∷ [] }
{}

/// An upload that is stopped, since a load of its part number is kept under another type.
pub fn other_type()
    ensures worked { IsWorked other_type_run [] (TargetStopped (codes "A5") ∷ []) 2 }
    ensures parts { parts_after other_type_run ≡ codes "ABC41-0000-0001" ∷ [] }
{}

/// An upload onto a unit whose manifest says no type ids, so that nothing is kept.
pub fn old_layout()
    ensures worked { IsWorked old_layout_run [] (Completed ∷ []) 3 }
    ensures parts { parts_after old_layout_run ≡ codes "ABC42-0000-0002" ∷ [] }
{}
