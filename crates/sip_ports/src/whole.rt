// Loops that read, send and receive all that is asked for.
ghost use Rattle.sip_ports.specs.Ports.{HasCause, ReadsWhole, SendsWhole, HearsWhole};

use crate::{Link, PortStop, Sink, Source};

/// Fills the buffer, or answers how many bytes came before the end. A call that stops has taken
/// fewer bytes than asked, which stand at the buffer's front. It makes one `read` a piece that
/// comes, and one more to see the end.
pub fn read_exact_into<S: Source>(source: &mut S, buf: &mut [u8]) -> Result<usize, PortStop>
    ensures bytes { ReadsWhole (S.left source.old) (S.left source.new) result buf.new }
    ensures cause { HasCause S.faults S.wants S.is_sure source.old source.new result }
{
    let mut filled = 0;
    while filled < buf.len() {
        let came = source.read(&mut buf[filled..])?;
        if came == 0 {
            return Ok(filled);
        }
        filled += came;
    }
    Ok(filled)
}

/// Sends all of the buffer. A call that stops has sent a front of it that is shorter. It makes one
/// `write` a piece that the sink takes.
pub fn write_whole<K: Sink>(sink: &mut K, buf: &[u8]) -> Result<(), PortStop>
    ensures talk { SendsWhole (K.talk sink.old) (K.talk sink.new) result buf.now }
    ensures cause { HasCause K.faults K.wants K.is_sure sink.old sink.new result }
{
    let mut sent = 0;
    while sent < buf.len() {
        sent += sink.write(&buf[sent..])?;
    }
    Ok(())
}

/// Fills the buffer, or answers how many bytes came before the other end had closed. A call that
/// stops has received fewer bytes than asked, which stand at the buffer's front. It makes one
/// `recv` a piece that comes, and one more to see the end.
pub fn recv_whole<L: Link>(link: &mut L, buf: &mut [u8]) -> Result<usize, PortStop>
    ensures talk { HearsWhole (L.talk link.old) (L.talk link.new) result buf.new }
    ensures cause { HasCause L.faults L.wants L.is_sure link.old link.new result }
{
    let mut filled = 0;
    while filled < buf.len() {
        let came = link.recv(&mut buf[filled..])?;
        if came == 0 {
            return Ok(filled);
        }
        filled += came;
    }
    Ok(filled)
}
