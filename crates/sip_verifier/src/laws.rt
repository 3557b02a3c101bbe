//! Worked examples of the definitions: each holds by computation.
#![tactic(auto, unfolding(sip_wire::specs::Spelling::spelling, sip_wire::specs::Spelling::in_bytes, sip_wire::specs::Spelling::spelled, sip_wire::specs::Transcript::ask_bytes))]

ghost use Rattle.std.specs.Prelude.{◌≡◌, ◌+◌, ◌*◌, ◌++◌, [], ◌∷◌, codes, negsuc, pos, length};
ghost use Rattle.std.specs.Prelude.{replicate};
ghost use Rattle.sip_subvec.specs.Examples.{reply_0, reply_1};
ghost use Rattle.sip_vector.specs.declared.query.Query.TheVariants as queries;
ghost use Rattle.sip_vector.specs.declared.update.Side.TheVariants as sides;
ghost use Rattle.sip_vector.specs.Answers.{pairs, number};
ghost use Rattle.sip_vector.specs.Examples.{stream};
ghost use Rattle.sip_verifier.specs.Draws.{blocks};
ghost use Rattle.sip_verifier.specs.Examples.{whole_talk, one_query, one_share, two_queries};
ghost use Rattle.sip_verifier.specs.Examples.{share_head, transcript_head};
ghost use Rattle.sip_verifier.specs.Transcripts.{transcript_of};
ghost use Rattle.sip_ports.specs.Ports.{heard};
ghost use Rattle.sip_wire.specs.declared.message.Message.TheVariants as messages;
ghost use Rattle.sip_wire.specs.declared.message.Reason.TheVariants as reasons;
ghost use Rattle.sip_wire.specs.declared.version.Version.TheVariants.{One, Two};
ghost use Rattle.sip_verifier.specs.ReplyBound.{most_bytes};
ghost use Rattle.sip_verifier.specs.Reports.{line, rejection};
ghost use Rattle.sip_replies.specs.Talks.{asked};
ghost use Rattle.sip_verifier.specs.Talks.{stream_sent, update_frames, whole_frames, bye_sent};

/// A whole talk of one query is these bytes in this order.
pub fn talk_of_one_query()
    ensures { stream_sent One 2 stream ++ asked One (messages.Query (queries.Sub 1 2))
        (2 ∷ 10 ∷ []) (reply_0 One ∷ reply_1 ∷ []) ++ bye_sent One ≡ whole_talk }
{}

/// The transcript of that run is a head of 35 bytes, and the replies: 76 bytes in all. Where a
/// share is asked for the head says version 2.
pub fn transcripts_of_one_query()
    ensures whole { transcript_of one_query (2 ∷ 10 ∷ []) (heard whole_talk)
        ≡ transcript_head ++ reply_0 One ++ reply_1 }
    ensures head { length transcript_head ≡ 35 }
    ensures all { length (transcript_of one_query (2 ∷ 10 ∷ []) (heard whole_talk)) ≡ 76 }
    ensures share { transcript_of one_share (2 ∷ 10 ∷ []) [] ≡ share_head }
{}

/// An empty stream has no frame of updates, and 513 updates have two frames, of which one is whole.
pub fn frames_of_updates()
    ensures none { update_frames [] ≡ [] }
    ensures two { length (update_frames
        (replicate 513 (record { side = sides.First; item = 0; delta = pos 1 }))) ≡ 2 }
    ensures whole { length (whole_frames
        (replicate 513 (record { side = sides.First; item = 0; delta = pos 1 }))) ≡ 512 }
{}

/// The lines of answers: pairs, a negative value, none, and a number.
pub fn lines_of_answers()
    ensures one { line (queries.Sub 1 2) (pairs (record { index = 2; value = pos 5 } ∷ []))
        ≡ codes "sub:1:2 2:5" ++ 10 ∷ [] }
    ensures two { line (queries.Sub 0 1)
        (pairs (record { index = 0; value = negsuc 1 } ∷ record { index = 1; value = pos 5 } ∷ []))
        ≡ codes "sub:0:1 0:-2 1:5" ++ 10 ∷ [] }
    ensures none { line (queries.Sub 0 3) (pairs []) ≡ codes "sub:0:3 none" ++ 10 ∷ [] }
    ensures sum { line (queries.Range sides.First 1 3) (number (pos 6)) ≡ codes "range:0:1:3 6"
        ++ 10 ∷ [] }
{}

/// The lines of rejections: a fault after the last reply, a refusal, and the end of the link.
pub fn lines_of_rejections()
    ensures root { rejection 1 2 reasons.Root ≡ codes "rejected query 1 round 2 Root" ++ 10 ∷ [] }
    ensures refused { rejection 4 0 (reasons.Refused 3)
        ≡ codes "rejected query 4 round 0 Refused(3)" ++ 10 ∷ [] }
    ensures closed { rejection 16 31 reasons.Closed ≡ codes "rejected query 16 round 31 Closed"
        ++ 10 ∷ [] }
{}

/// How many bytes a question about (3, 0, 5, 1) takes at most: for the entries 1 to 2, for a sum,
/// and for the entries of at least 4; none where the total, 9, is below the threshold. In version 2
/// a row has four bytes more.
pub fn bounds_by_hand()
    ensures entries { most_bytes One 2 stream (queries.Sub 1 2) ≡ 17 * 2 + 6_149 + 20 * 2 }
    ensures wide_entries { most_bytes Two 2 stream (queries.Sub 1 2) ≡ 21 * 2 + 8_197 + 20 * 2 }
    ensures sum { most_bytes One 2 stream (queries.F2 sides.First) ≡ 11 + 27 * 2 }
    ensures nodes { most_bytes One 2 stream (queries.Heavy sides.First 4)
        ≡ 2 * (25 * 4 + 3) + 6_149 }
    ensures wide_nodes { most_bytes Two 2 stream (queries.Heavy sides.First 4)
        ≡ 2 * (29 * 4 + 3) + 8_197 }
    ensures none { most_bytes One 2 stream (queries.Heavy sides.First 10) ≡ 0 }
{}

/// Each query has its own block of challenges.
pub fn blocks_of_two_queries()
    ensures { blocks two_queries (7 ∷ 8 ∷ 9 ∷ 10 ∷ []) ≡ (7 ∷ 8 ∷ []) ∷ (9 ∷ 10 ∷ []) ∷ [] }
{}
