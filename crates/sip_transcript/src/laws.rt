//! What the fields of a head are like, and how the definitions are tied to each other.

ghost use Rattle.std.specs.Prelude.{◌≡◌, ◌↔◌, ◌++◌, ◌∷◌, [], ℕ, All, List, Some, None, Option};
ghost use Rattle.std.specs.Prelude.{Result, IsTrue, codes, take};
ghost use Rattle.std.specs.List.{flat_map};
ghost use Rattle.sip_ports.specs.Ports.{HearsWhole, ReadsWhole, heard, outs};
ghost use Rattle.sip_ports.specs.declared.port.PortStop.{PortStop as AnyStop};
ghost use Rattle.sip_ports.specs.declared.port.TalkEvent.{TalkEvent as AnyEvent};
ghost use Rattle.sip_stream.specs.declared.form.Form.{Form as AnyForm};
ghost use Rattle.sip_vector.specs.declared.query.Query.{Query as AnyQuery};
ghost use Rattle.sip_wire.specs.Spelling.{spelling};
ghost use Rattle.sip_wire.specs.Transcript.{transcript};
ghost use Rattle.sip_wire.specs.declared.message.Message.{Message as AnyMessage};
ghost use Rattle.sip_wire.specs.declared.version.Version.{Version as AnyVersion};
ghost use Rattle.sip_wire.specs.declared.version.Version.TheVariants.{Two};
ghost use Rattle.sip_verifier.specs.Exchanges.{Exchange as AnyExchange};
ghost use Rattle.sip_verifier.specs.Inquiries.{Inquiry as AnyInquiry};
ghost use Rattle.sip_verifier.specs.Tasks.{CanBeAsked};
ghost use Rattle.sip_verifier.specs.VerdictClause.{AllWritten};
ghost use Rattle.sip_verifier.specs.Snapshots.{Counts as AnyCounts};
ghost use Rattle.sip_verifier.specs.declared.status.Status.{Status as AnyStatus};
ghost use Rattle.sip_verifier.specs.declared.status.Status.TheVariants as statuses;
ghost use Rattle.sip_verifier.specs.declared.task.Task.{Task as AnyTask};
ghost use Rattle.sip_transcript.specs.Agreements.{AuditAgrees, IsStored};
ghost use Rattle.sip_transcript.specs.AlikeAudits.{ConvertAgrees, IsConverted, TellSame};
ghost use Rattle.sip_transcript.specs.Auditing.{Audit, Audits};
ghost use Rattle.sip_transcript.specs.Conversions.{in_version_2, run_in_version_2};
ghost use Rattle.sip_transcript.specs.Examples.{head_by_hand, lines_by_hand, replies_by_hand};
ghost use Rattle.sip_transcript.specs.Fields.{fits_at, head_fault};
ghost use Rattle.sip_transcript.specs.Heads.{Ask, IsRun};
ghost use Rattle.sip_transcript.specs.Listings.{listing};
ghost use Rattle.sip_transcript.specs.Replaying.{Replays};
ghost use Rattle.sip_transcript.specs.Tales.{IsOfRun, IsReply, tale_of, text_of, transcript_fault};
ghost use Rattle.sip_transcript.specs.Writing.{Writes};

/// The transcript of a run has no fault in its head, whatever the replies are. So a head that is
/// there is read, and none that is there is refused.
pub fn runs_have_no_fault()
    ensures { (version : AnyVersion) (depth : ℕ) (asks : List Ask) (replies : List ℕ)
        → IsRun version depth asks
        → head_fault (transcript version depth asks replies) ≡ None }
{}

/// The transcript of a run whose replies are these messages tells that run, and has no fault. So it
/// is listed whole, and in version 2 it is written as it is.
pub fn runs_are_told()
    ensures told { (version : AnyVersion) (depth : ℕ) (asks : List Ask) (replies : List AnyMessage)
        → IsRun version depth asks → All (IsReply version) replies
        → tale_of (transcript version depth asks (flat_map (spelling version) replies))
        ≡ record { version = version; depth = depth; asks = asks; replies = replies; rest = [] } }
    ensures whole { (version : AnyVersion) (depth : ℕ) (asks : List Ask)
        (replies : List AnyMessage)
        → IsRun version depth asks → All (IsReply version) replies
        → transcript_fault (transcript version depth asks (flat_map (spelling version) replies))
        ≡ None }
{}

/// In version 2 the transcript of a run tells the same run: its depth, queries, challenges and
/// messages. It is one that a transcript of version 2 can tell of.
pub fn converted_runs_are_told()
    ensures told { (version : AnyVersion) (depth : ℕ) (asks : List Ask) (replies : List AnyMessage)
        → IsRun version depth asks → All (IsReply version) replies
        → tale_of (in_version_2 (tale_of
        (transcript version depth asks (flat_map (spelling version) replies))))
        ≡ record { version = Two; depth = depth; asks = asks; replies = replies; rest = [] } }
    ensures run { (version : AnyVersion) (depth : ℕ) (asks : List Ask) → IsRun version depth asks
        → IsRun Two depth asks }
{}

/// Where `convert` writes all, it had the transcript of a run, and what it wrote is that of the
/// same run in version 2: with its depth, queries, challenges and messages. One of version 2 is
/// copied.
pub fn one_run_is_converted()
    ensures written { (bytes text : List ℕ) (left : Option (List ℕ)) (had : List AnyEvent)
        → Writes in_version_2 bytes left (Some had) (Some (had ++ outs text)) statuses.Wrote
        → (run : IsOfRun bytes) × (text ≡ run_in_version_2 run) }
    ensures copied { (bytes : List ℕ) (run : IsOfRun bytes) → run.version ≡ Two
        → run_in_version_2 run ≡ bytes }
{}

/// A transcript has one head: where bytes begin with the heads of two runs, these are one, and so
/// is what stands behind them. So an audit replays the run that the transcript tells of, and no
/// other.
pub fn a_transcript_has_one_head()
    ensures { (version other : AnyVersion) (depth levels : ℕ) (asks others : List Ask)
        (behind rest : List ℕ) → IsRun version depth asks → IsRun other levels others
        → transcript version depth asks behind ≡ transcript other levels others rest
        → (other ≡ version) × (levels ≡ depth) × (others ≡ asks) × (rest ≡ behind) }
{}

/// What was heard determines the report: two runs of one inquiry over one stream that were
/// accepted, of which one heard what the other did and maybe more, heard the same and wrote the
/// same lines. So where an audit accepts the transcript of an accepted run it writes the lines of
/// that run.
pub fn accepted_runs_agree()
    ensures { (i : AnyInquiry) (x y : AnyExchange) (more : List ℕ) → y.stream ≡ x.stream
        → heard x.talk ≡ heard y.talk ++ more → AllWritten i x → AllWritten i y
        → (more ≡ []) × (y.report ≡ x.report) }
{}

/// An audit of what a run left agrees with the run. Let a run of `verify` have ended with a
/// verdict, and let `audit` keep its promises over the transcript that the run kept and the stream
/// that it read. Then it gives the same status and writes the same lines, unless one of its ports
/// failed or memory ran out. So it finds no fault in the transcript or in the stream, no query too
/// wide, no byte behind the verdict, and no other verdict.
pub fn audits_agree()
    ensures { (task : AnyTask) (x : AnyExchange) (before now : AnyCounts) (status : AnyStatus)
        (a : Audit) (earlier later : AnyCounts) (given : AnyStatus)
        → IsStored task x before now status a → Audits task.form a earlier later given
        → AuditAgrees x a status given }
{}

/// Converting a transcript does not change what it shows. Let one audit have a transcript that is
/// whole, and another one the same in version 2, and let both read the same stream and keep their
/// promises. Then they give the same status, but for the place of `BadTranscript`, and write the
/// same lines, unless a port of one of them failed or memory ran out there.
pub fn converted_audits_agree()
    ensures whole { (form : AnyForm) (a b : Audit) (earlier later before now : AnyCounts)
        (given other : AnyStatus)
        → IsConverted a b → Audits form a earlier later given → Audits form b before now other
        → ConvertAgrees a b given other }
    ensures told { (form : AnyForm) (a b : Audit) (earlier later before now : AnyCounts)
        (given other : AnyStatus)
        → TellSame a b → Audits form a earlier later given → Audits form b before now other
        → ConvertAgrees a b given other }
{}

/// The test of a query at a depth is whether it can be asked there.
pub fn queries_that_fit()
    ensures { (depth : ℕ) (query : AnyQuery) → IsTrue (fits_at depth query)
        ↔ CanBeAsked depth query }
{}

/// A head by hand has no fault. Without its last byte it has one where the second challenge begins,
/// as a part of its query's frame has where the frame begins, and a part of the text SIPT at 0.
pub fn a_head_by_hand()
    ensures whole { head_fault head_by_hand ≡ None }
    ensures cut { head_fault (take 34 head_by_hand) ≡ Some 27 }
    ensures query { head_fault (take 18 head_by_hand) ≡ Some 7 }
    ensures text { head_fault (take 3 head_by_hand) ≡ Some 0 }
{}

/// A transcript by hand is listed whole. Without its last byte it has a fault where its last frame
/// begins, and with a byte more at its old end; its listing is then that of all before.
pub fn a_transcript_by_hand()
    ensures whole { transcript_fault (head_by_hand ++ replies_by_hand) ≡ None }
    ensures lines { text_of listing (head_by_hand ++ replies_by_hand)
        ≡ lines_by_hand ++ codes "frame Siblings 00" ++ 10 ∷ [] }
    ensures cut { transcript_fault (take 75 (head_by_hand ++ replies_by_hand)) ≡ Some 72 }
    ensures fewer { text_of listing (take 75 (head_by_hand ++ replies_by_hand)) ≡ lines_by_hand }
    ensures longer { transcript_fault (head_by_hand ++ replies_by_hand ++ 0 ∷ []) ≡ Some 76 }
    ensures no_head { text_of listing (take 34 head_by_hand) ≡ [] }
{}

/// On a new link whose replies come out of a source that tells its bytes, a whole receive is a
/// whole read of the source.
#[tactic(auto, using(crate::proofs::Replaying::whole_receive))]
pub fn a_whole_receive_is_a_whole_read()
    ensures { (bytes : List ℕ) (left : Option (List ℕ)) (talk : List AnyEvent)
        (answer : Result ℕ AnyStop) (buf : List ℕ)
        → HearsWhole (Some []) (Some talk) answer buf → Replays (Some bytes) talk left
        → ReadsWhole (Some bytes) left answer buf }
{}
