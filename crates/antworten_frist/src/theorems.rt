// The theorem about both calls for a CONTRL. The function does nothing: what it promises is a theorem about the
// definitions that the calls are proved to meet.
ghost use Rattle.antworten_frist.specs.Versions.{CallsAgreeWithVersions};

/// Theorem: the call for a CONTRL that takes a change day answers what the call without one does, wherever both
/// versions of the rule agree. `fristen::theorems::versions_agree` says where they do.
#[tactic(auto, unfolding(crate::specs::Frist::contrl_due_at_answer, crate::specs::Frist::contrl_due_at_change_answer))]
pub fn calls_agree()
    ensures agree { CallsAgreeWithVersions }
{}
