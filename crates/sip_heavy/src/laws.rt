//! Laws of the check of heavy hitters. These functions do nothing: each contract is a fact that
//! holds.
#![tactic(auto, unfolding(crate::specs::AcceptsHeavy::verdict, crate::specs::AcceptsHeavy::known_after))]

ghost use Rattle.std.specs.Prelude.{◌≡◌, ℕ, ◌+◌, ◌<◌, ◌≤◌, ◌==◌, true, List, [], ◌∷◌, ◌++◌, length};
ghost use Rattle.std.specs.Prelude.{All, Ok, pos, negsuc};
ghost use Rattle.std.specs.List.{flat_map};
ghost use Rattle.sip_field.specs.Moduli.{m61_modulus};
ghost use Rattle.sip_vector.specs.Examples.{four};
ghost use Rattle.sip_vector.specs.Trees.{augroot};
ghost use Rattle.sip_vector.specs.Answers.{Answer};
ghost use Rattle.sip_wire.specs.Decoding.{IsBytes};
ghost use Rattle.sip_wire.specs.Spelling.{spelling};
ghost use Rattle.sip_wire.specs.declared.message.Message.{Message as AnyMessage};
ghost use Rattle.sip_wire.specs.declared.message.Message.TheVariants as messages;
ghost use Rattle.sip_wire.specs.declared.message.Node.{Node as AnyNode};
ghost use Rattle.sip_replies.specs.Replies.{IsAccepted, accepts, read_reply, verdict};
ghost use Rattle.sip_heavy.specs.AcceptsHeavy as heavy;
ghost use Rattle.sip_heavy.specs.Protocol.{HeavyAsked, HeavyState, heavy_protocol, heavy_rules};
ghost use Rattle.sip_heavy.specs.Protocol.{reaches};
ghost use Rattle.sip_heavy.specs.Stating.{AreFrames, IsFrame, States, as_answer, nodes_of};
ghost use Rattle.sip_heavy.specs.Stating.{stated_nodes, stated_replies, then_ended, then_read};
ghost use Rattle.sip_heavy.specs.AcceptsHeavy.{HeavyQuestion, end_test, known_after, merged};
ghost use Rattle.sip_heavy.specs.AcceptsHeavy.{nodes_above, with_nodes};
ghost use Rattle.sip_heavy.specs.Examples.{fault, leaf, mark, marks_verdict_of, node, pair};
ghost use Rattle.sip_heavy.specs.Examples.{verdict_of};
ghost use Rattle.sip_wire.specs.declared.message.Reason.TheVariants as reasons;

/// The entries of at least 4 of (3, 0, 5, 1), worked out by hand: the leaves 2 and 3 become the
/// node 1, and with the received node 0 the root.
pub fn five_is_heavy()
    ensures above { nodes_above m61_modulus 2 (leaf 2 5 ∷ leaf 3 1 ∷ []) ≡ node 1 27 6 ∷ [] }
    ensures merged { merged (node 1 27 6 ∷ []) (node 0 9 3 ∷ []) ≡ node 0 9 3 ∷ node 1 27 6 ∷ [] }
    ensures top { nodes_above m61_modulus 10 (node 0 9 3 ∷ node 1 27 6 ∷ []) ≡ node 0 8739 9 ∷ [] }
    ensures root { augroot m61_modulus four (2 ∷ 10 ∷ []) ≡ record { hash = 8739; count = pos 9 } }
    ensures said { verdict_of 4 (pair ∷ (node 0 9 3 ∷ []) ∷ [])
        ≡ Ok (record { index = 2; value = pos 5 } ∷ []) }
{}

/// The entries of at least 3, and of at least 6, of (0, 5, -9, 3) with the weights (0, 5, 9, 5),
/// worked out by hand. At 3 all leaves are shown and no node. At 6 the leaves 2 and 3 become the
/// node 1, and with the received node 0 the top; none of them has such an entry, however heavy it
/// is. A node 0 that counts too much is a heavy sibling, and a mark of another value has another
/// root.
pub fn marks_by_hand()
    ensures low { marks_verdict_of 3 ((mark 0 (pos 0) 0 ∷ mark 1 (pos 5) 5 ∷ mark 2 (negsuc 8) 9
        ∷ mark 3 (pos 3) 5 ∷ []) ∷ [] ∷ [])
        ≡ Ok (record { index = 1; value = pos 5 } ∷ record { index = 3; value = pos 3 } ∷ []) }
    ensures high { marks_verdict_of 6 ((mark 2 (negsuc 8) 9 ∷ mark 3 (pos 3) 5 ∷ [])
        ∷ (node 0 60 5 ∷ []) ∷ []) ≡ Ok [] }
    ensures sibling { marks_verdict_of 6 ((mark 2 (negsuc 8) 9 ∷ mark 3 (pos 3) 5 ∷ [])
        ∷ (node 0 60 6 ∷ []) ∷ []) ≡ fault 1 reasons.HeavySibling }
    ensures other { marks_verdict_of 6 ((mark 2 (pos 9) 9 ∷ mark 3 (pos 3) 5 ∷ [])
        ∷ (node 0 60 5 ∷ []) ∷ []) ≡ fault 2 reasons.Root }
{}

/// Faults of reply 0: a leaf without its sibling, a pair below the threshold, a pair above the
/// total, leaves that do not rise, a third leaf where there is room for two. A light pair wins over
/// one that is too heavy before it.
pub fn faults_of_the_leaves()
    ensures alone { verdict_of 4 ((leaf 2 5 ∷ []) ∷ []) ≡ fault 0 reasons.Pairs }
    ensures light { verdict_of 4 ((leaf 0 3 ∷ leaf 1 0 ∷ []) ∷ []) ≡ fault 0 reasons.LightParent }
    ensures many { verdict_of 4 ((leaf 2 9 ∷ leaf 3 1 ∷ []) ∷ []) ≡ fault 0 reasons.Total }
    ensures order { verdict_of 4 ((leaf 3 1 ∷ leaf 2 5 ∷ []) ∷ []) ≡ fault 0 reasons.BadOrder }
    ensures too_many { verdict_of 9 ((leaf 0 3 ∷ leaf 1 0 ∷ leaf 2 5 ∷ []) ∷ [])
        ≡ fault 0 reasons.TooMany }
    ensures light_first { verdict_of 4 ((leaf 0 9 ∷ leaf 1 9 ∷ leaf 2 1 ∷ leaf 3 1 ∷ []) ∷ [])
        ≡ fault 0 reasons.LightParent }
{}

/// Faults of reply 1, and of the tests behind it: a heavy sibling, a node that is known or outside
/// the level, no node at all in the last level, a wrong total, a wrong hash.
pub fn faults_of_the_nodes()
    ensures heavy { verdict_of 4 (pair ∷ (node 0 9 4 ∷ []) ∷ []) ≡ fault 1 reasons.HeavySibling }
    ensures known { verdict_of 4 (pair ∷ (node 1 27 3 ∷ []) ∷ []) ≡ fault 1 reasons.BadOrder }
    ensures outside { verdict_of 4 (pair ∷ (node 2 9 3 ∷ []) ∷ []) ≡ fault 1 reasons.BadOrder }
    ensures none { verdict_of 4 ([] ∷ [] ∷ []) ≡ fault 1 reasons.Pairs }
    ensures total { verdict_of 4 (pair ∷ (node 0 9 2 ∷ []) ∷ []) ≡ fault 2 reasons.Total }
    ensures root { verdict_of 4 (pair ∷ (node 0 8 3 ∷ []) ∷ []) ≡ fault 2 reasons.Root }
    ensures wrong_leaves { verdict_of 4 ([] ∷ (node 0 9 3 ∷ node 1 0 3 ∷ []) ∷ [])
        ≡ fault 2 reasons.Total }
{}

/// After a reply for each level that passes, one node is known, and it stands at index 0: it is the
/// node that the tests behind the last reply look at.
pub fn one_node_is_known_in_the_end()
    ensures { (p : ℕ) (q : HeavyQuestion) (challenges : List ℕ) (replies : List (List AnyNode))
        (known : List AnyNode) → length challenges ≡ q.depth → 0 < length challenges
        → length replies ≡ length challenges
        → known_after p q 0 [] challenges replies ≡ Ok known
        → (top : AnyNode) × (known ≡ top ∷ []) × (top.index ≡ 0) }
{}

/// The protocol of the replies, which goes state by state, is the check over lists of nodes by
/// level. For frames of nodes in each reply that have a spelling, and the end of a level behind
/// them, the bytes come to what the nodes of these frames do, however they are cut into frames: to
/// the heavy leaves, or to the first fault.
pub fn bytes_come_to_what_nodes_do()
    ensures judged { (asked : HeavyAsked) (challenges : List ℕ) (replies : List (List AnyMessage))
        → asked.query.depth ≡ length challenges
        → AreFrames asked.version asked.query.form 0 replies
        → length replies ≡ length challenges
        → verdict (heavy_protocol asked) challenges (stated_replies asked.version replies)
        ≡ as_answer (heavy.verdict asked.modulus asked.query asked.root challenges
        (stated_nodes asked.modulus replies)) }
    ensures accepted { (asked : HeavyAsked) (challenges : List ℕ)
        (replies : List (List AnyMessage)) → asked.query.depth ≡ length challenges
        → reaches asked.query ≡ true → AreFrames asked.version asked.query.form 0 replies
        → length replies ≡ length challenges
        → accepts (heavy_protocol asked) challenges (stated_replies asked.version replies)
        ≡ heavy.accepts asked.modulus asked.query asked.root challenges
        (stated_nodes asked.modulus replies) }
{}

/// Accepted replies are the bytes of frames of nodes, by level, with the end of a level behind
/// those of each; their nodes pass all tests over lists, and the heavy leaves are the answer.
pub fn accepted_replies_state_nodes()
    ensures { (asked : HeavyAsked) (challenges : List ℕ) (replies : List (List ℕ))
        (answer : Answer) → asked.query.depth ≡ length challenges
        → reaches asked.query ≡ true → All IsBytes replies
        → IsAccepted (heavy_protocol asked) challenges replies answer
        → (frames : List (List AnyMessage)) × States asked challenges replies answer frames }
{}

/// A reply is read node by node, whatever follows: so nodes that fail a test show their fault at
/// once, and the tests of a level come with its end.
pub fn frames_are_read_one_after_another()
    ensures nodes { (asked : HeavyAsked) (s : HeavyState) (frames : List AnyMessage)
        (rest : List ℕ) → All (IsFrame asked.version asked.query.form (s.level == 0)) frames
        → read_reply (heavy_rules asked.version asked.modulus asked.query) s
        (flat_map (spelling asked.version) frames ++ rest)
        ≡ then_read asked s rest (with_nodes asked.query s.level s.known s.received
        (flat_map (nodes_of asked.modulus) frames)) }
    ensures end { (asked : HeavyAsked) (s : HeavyState) (rest : List ℕ)
        → read_reply (heavy_rules asked.version asked.modulus asked.query) s
        (spelling asked.version messages.LevelEnd ++ rest)
        ≡ then_ended s rest (end_test asked.query s.level (merged s.known s.received)) }
{}
