//! The head of a transcript.

ghost use Rattle.std.specs.Prelude.{◌≡◌, ◌≤◌, ◌<◌, ◌+◌, ◌*◌, ℕ, List, [], ◌∷◌, length};
ghost use Rattle.std.specs.Prelude.{slice_index_or, IfErr, IsErrOf, IsSome, OnOk};
ghost use Rattle.arrayvec.specs.ArrayVec.{array_vec_len};
ghost use Rattle.sip_wire.specs.Table.{most_queries};
ghost use Rattle.sip_wire.specs.Versions.{deepest};
ghost use Rattle.sip_ports.specs.Ports.{Lasts, Rose};
ghost use Rattle.sip_transcript.specs.Causes.{there_of};
ghost use Rattle.sip_transcript.specs.Fields.{times, ask_fields, element_field};
ghost use Rattle.sip_transcript.specs.Heads.{Ask, ReadsHead, Says};
ghost use Rattle.sip_transcript.specs.Parts.{FailsIn, ReadsOn, TakesBlock, TakesAsk};

use crate::HeadFault;
use crate::fields::{read_challenge, read_count, read_depth, read_magic, read_query, read_version};
use arrayvec::ArrayVec;
use sip_ports::{PortStop, Source};
use sip_vector::{CAP, Depth, Query};
use sip_wire::{MOST_QUERIES, Version};

/// How many challenges a transcript has at most: 16 queries at depth 48.
pub const MOST_CHALLENGES: usize = MOST_QUERIES * CAP;

/// How many bytes stand in front of the first query.
const OPENING: u64 = 7;

/// How many bytes a challenge has.
const CHALLENGE: u64 = 8;

/// What the head of a transcript says: the depth, and each query with a challenge for each level.
#[derive(Drop)]
pub struct Head {
    /// The version of the frames in the transcript.
    pub version: Version,
    /// The depth of the run.
    pub depth: Depth,
    /// The queries, from 1 to 16, in the order in which they were asked.
    pub queries: ArrayVec<Query, MOST_QUERIES>,
    /// The challenges of each query, as many as there are levels, in the order of the queries.
    pub challenges: ArrayVec<u64, MOST_CHALLENGES>,
    /// How many bytes the head has.
    pub length: u64,
}

/// What a field says, which begins at this place.
fn there<T: Drop>(field: Result<Option<T>, PortStop>, offset: u64) -> Result<T, HeadFault>
    ensures { result ≡ there_of field offset }
{
    match field {
        Ok(Some(value)) => Ok(value),
        Ok(None) => Err(HeadFault::Bad { offset }),
        Err(stop) => Err(HeadFault::from(stop)),
    }
}

/// Adds so many challenges of a source, which begin at this place.
fn read_block<S: Source>(
    source: &mut S,
    levels: u8,
    at: u64,
    challenges: &mut ArrayVec<u64, MOST_CHALLENGES>,
) -> Result<(), HeadFault>
    requires room { array_vec_len challenges.old + levels ≤ 768 }
    requires near { at ≤ 1000000 }
    ensures took { OnOk result (TakesBlock levels (S.left source.old) (S.left source.new)
        challenges.old.items challenges.new.items) }
    ensures bad { IfErr result (FailsIn (times levels (element_field ∷ [])) at
        (S.left source.old) (S.left source.new)) }
    ensures source { ReadsOn S.left S.faults S.wants S.is_sure source.old source.new result }
{
    for level in 0..levels {
        let challenge = there(read_challenge(source), at + CHALLENGE * level as u64)?;
        challenges.push(challenge);
    }
    Ok(())
}

impl Head {
    /// The challenges of the query at a place, from 0.
    pub(crate) fn block(&self, place: usize) -> &[u64]
        requires said { (asks : List Ask) × Says self.now asks }
        requires asked { place < array_vec_len self.now.queries }
        ensures { (asks : List Ask) (other : Ask) → Says self.now asks
            → result.now ≡ (slice_index_or asks place other).1 }
    {
        let levels = self.depth.get() as usize;
        let (_, rest) = self.challenges.as_slice().split_at(place * levels);
        let (block, _) = rest.split_at(levels);
        block
    }

    /// Adds the next query of a source, with its challenges.
    fn read_ask<S: Source>(&mut self, source: &mut S) -> Result<(), HeadFault>
        requires few { array_vec_len self.old.queries < most_queries }
        requires room { array_vec_len self.old.challenges + self.old.depth ≤ 768 }
        requires near { self.old.length ≤ 100000 }
        requires shallow { self.old.depth ≤ deepest self.old.version }
        ensures took { OnOk result
            (TakesAsk (S.left source.old) (S.left source.new) self.old self.new) }
        ensures bad { IfErr result (FailsIn (ask_fields self.old.version self.old.depth)
            self.old.length (S.left source.old) (S.left source.new)) }
        ensures source { ReadsOn S.left S.faults S.wants S.is_sure source.old source.new result }
    {
        let levels = self.depth.get();
        let asked = there(read_query(source, self.version, self.depth), self.length)?;
        let at = self.length + asked.1 as u64;
        read_block(source, levels, at, &mut self.challenges)?;
        self.queries.push(asked.0);
        self.length = at + CHALLENGE * levels as u64;
        Ok(())
    }
}

/// Reads transcripts.
pub struct TranscriptReader;

impl TranscriptReader {
    /// The head of the transcript that a source begins with. What follows the head is left in the
    /// source. It takes no memory.
    ///
    /// # Errors
    ///
    /// `Bad` exactly where a field of the head has none of its values, or the source ends in it,
    /// with the place where the first such field begins: no more was taken of it than a field has.
    /// `ReadFault` only where the source's count of faults rose, and `OutOfMemory` only where its
    /// count of wants did.
    pub fn head<S: Source>(source: &mut S) -> Result<Head, HeadFault>
        ensures reads { ReadsHead (S.left source.old) (S.left source.new) result }
        ensures failed { IsErrOf result HeadFault.ReadFault
            → Rose (S.faults source.old) (S.faults source.new) }
        ensures memory { IsErrOf result HeadFault.OutOfMemory
            → Rose (S.wants source.old) (S.wants source.new) }
        ensures told { IsSome (S.left source.old) → IsSome (S.left source.new) }
        ensures lasts { Lasts S.faults S.wants S.is_sure source.old source.new }
    {
        there(read_magic(source), 0)?;
        let version = there(read_version(source), 4)?;
        let depth = there(read_depth(source, version), 5)?;
        let count = there(read_count(source), 6)?;
        let mut head = Head {
            version,
            depth,
            queries: ArrayVec::new(),
            challenges: ArrayVec::new(),
            length: OPENING,
        };
        while head.queries.len() < count as usize {
            head.read_ask(source)?;
        }
        Ok(head)
    }
}
