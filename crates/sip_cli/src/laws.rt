//! What follows from the definitions of this crate and from what its commands keep: what an audit
//! comes to that is given what another command left, and with which words the lines of moments
//! begin.

ghost use Rattle.std.specs.Prelude.{◌≡◌, ℤ, ◌++◌, ◌∷◌, [], codes};
ghost use Rattle.std.specs.Fmt.{signed_decimal};
ghost use Rattle.sip_moments.specs.declared.moment.Moment.{Moment as AnyMoment};
ghost use Rattle.sip_moments.specs.Manner.{line, moment_word};
ghost use Rattle.sip_stream.specs.declared.form.Form.{Form as AnyForm};
ghost use Rattle.sip_verifier.specs.declared.status.Status.{Status as AnyStatus};
ghost use Rattle.sip_verifier.specs.declared.task.Task.{Task as AnyTask};
ghost use Rattle.sip_verifier.specs.Exchanges.{Exchange as AnyExchange};
ghost use Rattle.sip_transcript.specs.Agreements.{AuditAgrees};
ghost use Rattle.sip_transcript.specs.AlikeAudits.{ConvertAgrees, TellSame};
ghost use Rattle.sip_transcript.specs.Auditing.{Audit as Audited};
ghost use Rattle.sip_cli.specs.Stored.{DidAudit, DidConvert, DidKeep};

/// `verify`, and then `audit` of the stream that it read and the transcript that it kept. Where the
/// first came to a verdict, the second gives the same status and writes the same lines, unless one
/// of its ports failed or memory ran out.
pub fn kept_runs_are_judged_alike()
    ensures { (task : AnyTask) (x : AnyExchange) (status given : AnyStatus) (a : Audited)
        → DidKeep task x status a → DidAudit task.form a given → AuditAgrees x a status given }
{}

/// `convert`, and then `audit` of what it had and of what it wrote, over any stream. Where the
/// first wrote all, its two transcripts are of the same run, and the two audits give the same
/// status, but for the place of `BadTranscript`, and write the same lines, unless a port of one of
/// them failed or memory ran out there.
pub fn converted_runs_are_judged_alike()
    ensures same { (a b : Audited) → DidConvert a b → TellSame a b }
    ensures judged { (form : AnyForm) (a b : Audited) (given other : AnyStatus)
        → DidConvert a b → DidAudit form a given → DidAudit form b other
        → ConvertAgrees a b given other }
{}

/// The line of a moment is the word that asks it, a space and the number.
pub fn lines_of_moments_begin_with_their_words()
    ensures { (m : AnyMoment) (z : ℤ)
        → line m z ≡ moment_word m ++ codes " " ++ signed_decimal z ++ 10 ∷ [] }
{}
