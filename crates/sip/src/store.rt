//! The command that serves over a stream in a file, which is opened when it is first read.

ghost use Rattle.std.specs.Prelude.{◌≡◌, IfSome};
ghost use Rattle.sip_cli.specs.Statuses.{Ends};
ghost use Rattle.sip_cli.specs.ToldStream.{stream_form, stream_teller, unread};
ghost use Rattle.sip_words.specs.Words.{Spells};

use crate::late::{AgainReader, LateReader, look_again};
use crate::{Stream, lines, obey_over};
use sip_advice::Noted;
use sip_cli::ToldSource;
use sip_ports::ReaderSource;
use sip_verifier::{Port, Status};
use sip_words::{Command, Opening, PortPlan, Words};

/// A source over the file of a stream, which is opened when it is first read; `None` where memory
/// is refused.
#[inline(never)]
fn stored<'a>(
    rt: &HostRuntime,
    words: &'a Words,
    command: &Command,
    opening: Opening,
    tells: bool,
) -> Option<Box<Stream<ReaderSource<LateReader<'a>>>>>
    ensures { IfSome result (λ told. IfSome (stream_teller told.value) (λ teller.
        teller.reading ≡ unread (stream_form command.now))) }
{
    let file = ReaderSource::new(LateReader::of(rt, words, opening, None));
    Box::new(rt.alloc(), ToldSource::new(command, file, lines(rt, tells))).ok()
}

/// A source over the same file, which is read again from its begin; `None` where memory is refused.
#[inline(never)]
fn again<'a>(
    rt: &HostRuntime,
    words: &'a Words,
    opening: Opening,
) -> Option<Box<ReaderSource<AgainReader<'a>>>> {
    let file = LateReader::of(rt, words, opening, None).map(AgainReader::new);
    Box::new(rt.alloc(), ReaderSource::new(file)).ok()
}

/// Does `serve`, whose stream is opened when it is first read, and notes which files are not to be
/// had. `None` where memory is refused to a port.
#[inline(never)]
pub fn obey_stored(
    rt: &HostRuntime,
    words: &Words,
    command: &Command,
    plan: &PortPlan,
    noted: &mut Noted,
    tells: bool,
) -> Option<Status>
    requires { Spells words.now command.now }
    ensures { IfSome result (λ status. Ends command.now status) }
{
    let mut first = stored(rt, words, command, plan.first, tells)?;
    let mut again = again(rt, words, plan.first)?;
    let status = obey_over(
        rt,
        words,
        command,
        plan,
        &mut *first,
        &mut *again,
        noted,
        tells,
    )?;
    if matches!(status, Status::ReadFault { port: Port::First }) {
        look_again(rt, words, plan.first, &mut noted.first);
    }
    Some(status)
}
