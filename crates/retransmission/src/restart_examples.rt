//! Worked examples of the definitions, as theorems: each sentence of a definition has one that a slip in it breaks.
ghost use Rattle.std.specs.Prelude.{◌≡◌, true, false, Some, None};
ghost use Rattle.retransmission.specs.declared.reply.Reply.TheVariants as replies;
ghost use Rattle.retransmission.specs.declared.restart.Restart.TheVariants.{Waiting, Announced, Serving};
ghost use Rattle.retransmission.specs.declared.heard.Heard.TheVariants.{Nothing, PutOff, Redirected, Answered};
ghost use Rattle.retransmission.specs.Restarting.{begun, announced_at, is_serving, heard_of};
ghost use Rattle.retransmission.specs.RestartExample.{other_agent};

/// Each sentence at an example.
pub fn each_sentence_has_an_example()
    // An announcement waits from its moment on, and is due at the end of the wait; then nothing is due.
    ensures begun { begun 1000 500 ≡ Waiting 1500 }
    ensures at_once { begun 7 0 ≡ Waiting 7 }
    ensures due { announced_at (begun 1000 500) ≡ Some 1500 }
    ensures sent { announced_at Announced ≡ None }
    ensures answered { announced_at Serving ≡ None }
    // It serves once its announcement is answered.
    ensures it_serves_once_it_is_answered_waiting { is_serving (Waiting 1500) ≡ false }
    ensures announced { is_serving Announced ≡ false }
    ensures it_serves_once_it_is_answered_serving { is_serving Serving ≡ true }
    // A response to nothing in flight says nothing, and a provisional one puts off what is due, whatever it names.
    ensures stranger { heard_of Announced replies.Stranger 521 (Some other_agent) ≡ Nothing }
    ensures stranger_alone { heard_of Announced replies.Stranger 200 None ≡ Nothing }
    ensures stranger_served { heard_of Serving replies.Stranger 200 (Some other_agent) ≡ Nothing }
    ensures provisional { heard_of Announced replies.Provisional 100 (Some other_agent) ≡ PutOff }
    ensures provisional_alone { heard_of Announced replies.Provisional 100 None ≡ PutOff }
    ensures provisional_served { heard_of Serving replies.Provisional 100 (Some other_agent) ≡ PutOff }
    ensures provisional_waiting { heard_of (Waiting 1500) replies.Provisional 199 None ≡ PutOff }
    // The answer to an announcement, whatever its return code, may name whom to notify.
    ensures taken { heard_of Announced replies.Answered 200 (Some other_agent) ≡ Answered (Some other_agent) }
    ensures an_answer_names_whom_to_notify_alone { heard_of Announced replies.Answered 200 None ≡ Answered None }
    ensures refused { heard_of Announced replies.Answered 500 (Some other_agent) ≡ Answered (Some other_agent) }
    ensures refused_alone { heard_of Announced replies.Answered 500 None ≡ Answered None }
    ensures below { heard_of Announced replies.Answered 520 (Some other_agent) ≡ Answered (Some other_agent) }
    ensures above { heard_of Announced replies.Answered 522 (Some other_agent) ≡ Answered (Some other_agent) }
    // 521 redirects an announcement where it names an entity; else it is an answer as any other.
    ensures named { heard_of Announced replies.Answered 521 (Some other_agent) ≡ Redirected other_agent }
    ensures an_announcement_is_redirected_alone { heard_of Announced replies.Answered 521 None ≡ Answered None }
    // The answer to a notification names nobody, and doesn't redirect it.
    ensures answers_to_notifications_name_nobody_serving { heard_of Serving replies.Answered 200 (Some other_agent) ≡ Answered None }
    ensures serving_redirected { heard_of Serving replies.Answered 521 (Some other_agent) ≡ Answered None }
    ensures serving_alone { heard_of Serving replies.Answered 200 None ≡ Answered None }
    ensures answers_to_notifications_name_nobody_waiting { heard_of (Waiting 1500) replies.Answered 200 (Some other_agent) ≡ Answered None }
    ensures waiting_redirected { heard_of (Waiting 1500) replies.Answered 521 (Some other_agent) ≡ Answered None }
{}
