//! The fields of a transcript's head, one at a time: `None` where the source has no value of the
//! field in front, or ends in it.

ghost use Rattle.std.specs.Prelude.{◌≡◌, ◌≤◌, ◌↔◌, IsTrue, [], ◌∷◌, length, IfOk, IfSome, IsSome};
ghost use Rattle.std.specs.Int.{w32, w64, to_be_bytes};
ghost use Rattle.sip_ports.specs.Ports.{HasCause};
ghost use Rattle.sip_wire.specs.Spelling.{asked, in_bytes, spelling};
ghost use Rattle.sip_wire.specs.declared.kind.Place.TheVariants.{ToHelper};
ghost use Rattle.sip_wire.specs.Table.{is_element};
ghost use Rattle.sip_wire.specs.Transcript.{magic};
ghost use Rattle.sip_wire.specs.Versions.{number_of};
ghost use Rattle.sip_wire.specs.declared.message.Message.TheVariants as messages;
ghost use Rattle.sip_verifier.specs.Tasks.{CanBeAsked};
ghost use Rattle.sip_transcript.specs.Fields.{text_field, byte_field, query_field, element_field};
ghost use Rattle.sip_transcript.specs.Fields.{is_version, is_depth, is_count, query_of};
ghost use Rattle.sip_transcript.specs.Heads.{longest_field};
ghost use Rattle.sip_transcript.specs.Parts.{AsksIn, ReadsField, MayAsk};

use crate::frames::{next_byte, take_frame};
use arrayvec::ArrayVec;
use sip_field::{Field, M61};
use sip_ports::{PortStop, Source, read_exact_into};
use sip_vector::{Depth, Query};
use sip_wire::{MOST_QUERIES, Message, Place, Version, read};

/// The text SIPT, as a number.
const MAGIC: u32 = 0x5349_5054;

/// How many bytes the frame of a query has at most, that of a range with wide items.
const LONGEST_QUERY: usize = 21;

/// The number that four bytes spell.
fn number_of_4(bytes: [u8; 4]) -> u32
    ensures { to_be_bytes w32 result ≡ bytes }
{
    u32::from_be_bytes(bytes)
}

/// The number that eight bytes spell.
fn number_of_8(bytes: [u8; 8]) -> u64
    ensures { to_be_bytes w64 result ≡ bytes }
{
    u64::from_be_bytes(bytes)
}

/// The text that a transcript begins with.
pub fn read_magic<S: Source>(source: &mut S) -> Result<Option<()>, PortStop>
    ensures reads { ReadsField (text_field magic) (λ _. magic) (λ _. Unit {0})
        (S.left source.old) (S.left source.new) result }
    ensures told { IsSome (S.left source.old) → IsSome (S.left source.new) }
    ensures cause { HasCause S.faults S.wants S.is_sure source.old source.new result }
{
    let mut bytes = [0; 4];
    let came = read_exact_into(source, &mut bytes)?;
    if came < 4 {
        return Ok(None);
    }
    let number = number_of_4(bytes);
    if number != MAGIC {
        return Ok(None);
    }
    Ok(Some(()))
}

/// The version of the frames.
pub fn read_version<S: Source>(source: &mut S) -> Result<Option<Version>, PortStop>
    ensures reads { ReadsField (byte_field is_version) (λ version. number_of version ∷ [])
        (λ _. Unit {0}) (S.left source.old) (S.left source.new) result }
    ensures told { IsSome (S.left source.old) → IsSome (S.left source.new) }
    ensures cause { HasCause S.faults S.wants S.is_sure source.old source.new result }
{
    let Some(number) = next_byte(source)? else {
        return Ok(None);
    };
    Ok(Version::of(number))
}

/// The depth, to which the version has to go.
pub fn read_depth<S: Source>(source: &mut S, version: Version) -> Result<Option<Depth>, PortStop>
    ensures reads { ReadsField (byte_field (is_depth version)) (λ depth. depth ∷ [])
        (λ depth. IsTrue (is_depth version depth)) (S.left source.old) (S.left source.new) result }
    ensures told { IsSome (S.left source.old) → IsSome (S.left source.new) }
    ensures cause { HasCause S.faults S.wants S.is_sure source.old source.new result }
{
    let Some(levels) = next_byte(source)? else {
        return Ok(None);
    };
    if levels > version.deepest() {
        return Ok(None);
    }
    Ok(Depth::new(levels))
}

/// The number of queries.
pub fn read_count<S: Source>(source: &mut S) -> Result<Option<u8>, PortStop>
    ensures reads { ReadsField (byte_field is_count) (λ count. count ∷ [])
        (λ count. IsTrue (is_count count)) (S.left source.old) (S.left source.new) result }
    ensures told { IsSome (S.left source.old) → IsSome (S.left source.new) }
    ensures cause { HasCause S.faults S.wants S.is_sure source.old source.new result }
{
    let Some(count) = next_byte(source)? else {
        return Ok(None);
    };
    if count < 1 || count as usize > MOST_QUERIES {
        return Ok(None);
    }
    Ok(Some(count))
}

/// The query that a message asks, if it asks one.
fn query_of(message: &Message) -> Option<Query>
    ensures { result ≡ query_of message.now }
{
    match message {
        Message::Query(query) => Some(*query),
        _ => None,
    }
}

/// Whether a query can be asked at this depth.
fn can_be_asked(query: &Query, depth: Depth) -> bool
    ensures { IsTrue result ↔ CanBeAsked depth query.now }
{
    query.is_built() && query.fits(depth)
}

/// The query that a frame asks, if it asks one that can be asked at this depth.
fn query_in(version: Version, depth: Depth, frame: &[u8]) -> Option<Query>
    requires { length frame.now ≤ asked version ToHelper frame.now }
    ensures { AsksIn version depth frame.now result }
{
    let outcome = read(Place::ToHelper, version, frame);
    let message = match outcome {
        Ok(message) => message,
        Err(_fault) => return None,
    };
    let question = query_of(&message);
    match question {
        Some(query) => {
            if can_be_asked(&query, depth) {
                return Some(query);
            }
            None
        }
        None => None,
    }
}

/// A query that can be asked at this depth, and how many bytes its frame has.
pub fn read_query<S: Source>(
    source: &mut S,
    version: Version,
    depth: Depth,
) -> Result<Option<(Query, usize)>, PortStop>
    ensures reads { ReadsField (query_field version depth)
        (λ asked. spelling version (messages.Query asked.0)) (MayAsk version depth)
        (S.left source.old) (S.left source.new) result }
    ensures short { IfOk result (λ next. IfSome next (λ asked. asked.1 ≤ longest_field)) }
    ensures told { IsSome (S.left source.old) → IsSome (S.left source.new) }
    ensures cause { HasCause S.faults S.wants S.is_sure source.old source.new result }
{
    let mut frame: ArrayVec<u8, LONGEST_QUERY> = ArrayVec::new();
    let fits = take_frame(source, Place::ToHelper, version, &mut frame)?;
    if !fits {
        return Ok(None);
    }
    let question = query_in(version, depth, frame.as_slice());
    match question {
        Some(query) => Ok(Some((query, frame.len()))),
        None => Ok(None),
    }
}

/// A challenge, in eight bytes.
pub fn read_challenge<S: Source>(source: &mut S) -> Result<Option<u64>, PortStop>
    ensures reads { ReadsField element_field (in_bytes 8) (λ x. IsTrue (is_element x))
        (S.left source.old) (S.left source.new) result }
    ensures told { IsSome (S.left source.old) → IsSome (S.left source.new) }
    ensures cause { HasCause S.faults S.wants S.is_sure source.old source.new result }
{
    let mut bytes = [0; 8];
    let came = read_exact_into(source, &mut bytes)?;
    if came < 8 {
        return Ok(None);
    }
    let number = number_of_8(bytes);
    if number >= M61::MODULUS {
        return Ok(None);
    }
    Ok(Some(number))
}
