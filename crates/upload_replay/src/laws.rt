//! What holds of what a run leaves. This function does nothing; its clauses are the laws.
ghost use Rattle.std.specs.Prelude.{ℕ, ◌++◌, List, Option, Result};
ghost use Rattle.std.specs.List.{AllByRecursion};
ghost use Rattle.disk_model.specs.Moments.{LeavesOnly};
ghost use Rattle.exchange_trace.specs.Happenings.{HappeningView};
ghost use Rattle.exchange_trace.specs.Steps.{Step};
ghost use Rattle.link_net.specs.Links.{LinkState};
ghost use Rattle.replay_rules.specs.BothEnds.{Setting};
ghost use Rattle.upload_replay.specs.Leaves.{HoldsNoOlder, IsNoOlder, LeavesHistory};
ghost use Rattle.upload_replay.specs.Leaves.{all_active, brought_last};
ghost use Rattle.upload_replay.specs.declared.outcome.Drive.{Drive};
ghost use Rattle.upload_replay.specs.declared.outcome.DriveFault.{DriveFault};

use disk_model::Disk;
use replay_rules::laws::contents_follow_their_trace;

/// What may be active in a run, and so all that a power loss may leave of it however it ends, is a
/// configuration of the target that the run began on, with its sequence number or a greater one.
pub fn what_a_run_leaves_is_no_older<K: Disk>()
    ensures active { (set : Setting) (steps : List Step) (last : Option HappeningView)
        → AllByRecursion (IsNoOlder set.start)
        (brought_last set steps last ++ all_active set steps) }
    ensures left { (set : Setting) (began link : LinkState) (since : ℕ) (disk : K)
        (result : Result Drive DriveFault)
        → LeavesHistory set began link since (K.state disk) result
        → LeavesOnly since (HoldsNoOlder set.start) (K.state disk) }
{
    // For the proof: does nothing.
    contents_follow_their_trace();
}
