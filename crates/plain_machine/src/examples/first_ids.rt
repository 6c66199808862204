//! With which ids the commands of a gateway begin, and how they go round (RFC 3435, 3.2.1.2), as theorems.
#![tactic(auto, unfolding(crate::proofs::Computing::on_examples))]

ghost use Rattle.std.specs.Prelude.{◌≡◌, ◌∷◌, [], codes};
ghost use Rattle.mg_line.specs.declared.phone.Act.TheVariants.{OffHook, OnHook};
ghost use Rattle.plain_machine.specs.Event.{phone, tick};
ghost use Rattle.plain_machine.specs.Posting.{id_on};
ghost use Rattle.plain_machine.specs.Machine.{opening, opening_endpoint, opening_own};
ghost use Rattle.plain_machine.specs.Lists.{machine_after, outputs_of, outputs_from};
ghost use Rattle.plain_machine.specs.Example.{announced_under, beginning_with, ntfy, ready_machine, response, rqnt, to_agent_at};

/// Each sentence at an example.
pub fn each_sentence_has_an_example()
    // The ids of each line begin with the first number of the setup, and those of the gateway itself one higher. Past the last
    // number that they may begin with it goes round.
    ensures of_line_1 { id_on 1 (opening_endpoint (beginning_with 5) 1).post.number ≡ 10000005 }
    ensures of_line_2 { id_on 2 (opening_endpoint (beginning_with 5) 2).post.number ≡ 20000005 }
    ensures own { id_on 0 (opening_own (beginning_with 5)).number ≡ 6 }
    ensures none { id_on 2 (opening_endpoint (beginning_with 0) 2).post.number ≡ 20000000 }
    ensures own_none { id_on 0 (opening_own (beginning_with 0)).number ≡ 1 }
    ensures last { id_on 1 (opening_endpoint (beginning_with 9999998) 1).post.number ≡ 19999998 }
    ensures own_last { id_on 0 (opening_own (beginning_with 9999998)).number ≡ 9999999 }
    ensures past { id_on 1 (opening_endpoint (beginning_with 9999999) 1).post.number ≡ 10000000 }
    ensures own_past { id_on 0 (opening_own (beginning_with 9999999)).number ≡ 1 }
    ensures announced { outputs_of (beginning_with 5) (tick 1 ∷ []) ≡ to_agent_at 1 (announced_under 6) ∷ [] }
    ensures told { outputs_from (beginning_with 5) (ready_machine (beginning_with 5)) (phone 2 OffHook ∷ [])
        ≡ to_agent_at 1000 (ntfy 20000005 2 (codes "0") (codes "L/hd")) ∷ [] }
    // From there each command takes the next number, and behind the greatest comes the least: 0 of a line, and 1 of the gateway
    // itself.
    ensures next { outputs_from (beginning_with 5) (ready_machine (beginning_with 5)) (phone 2 OffHook ∷ response 200 20000005
        ∷ rqnt 1501 (codes "aaln/2") (codes "X: A5\r\n") ∷ phone 2 OnHook ∷ [])
        ≡ to_agent_at 1000 (ntfy 20000005 2 (codes "0") (codes "L/hd")) ∷ to_agent_at 1000 (codes "200 1501 OK\r\n")
        ∷ to_agent_at 1000 (ntfy 20000006 2 (codes "A5") (codes "L/hu")) ∷ [] }
    ensures round { outputs_from (beginning_with 9999998) (ready_machine (beginning_with 9999998))
        (phone 1 OffHook ∷ response 200 19999998
        ∷ rqnt 1501 (codes "aaln/1") (codes "X: A5\r\n") ∷ phone 1 OnHook ∷ response 200 19999999
        ∷ rqnt 1502 (codes "aaln/1") (codes "X: A6\r\n") ∷ phone 1 OffHook ∷ [])
        ≡ to_agent_at 1000 (ntfy 19999998 1 (codes "0") (codes "L/hd")) ∷ to_agent_at 1000 (codes "200 1501 OK\r\n")
        ∷ to_agent_at 1000 (ntfy 19999999 1 (codes "A5") (codes "L/hu")) ∷ to_agent_at 1000 (codes "200 1502 OK\r\n")
        ∷ to_agent_at 1000 (ntfy 10000000 1 (codes "A6") (codes "L/hd")) ∷ [] }
    ensures own_announced { outputs_of (beginning_with 9999998) (tick 1 ∷ [])
        ≡ to_agent_at 1 (announced_under 9999999) ∷ [] }
    ensures own_round { let after = machine_after (beginning_with 9999998) (opening (beginning_with 9999998)) (tick 1 ∷ [])
        in after.endpoints.own.number ≡ 1 }
{}
