//! A lie, and what it is about.

ghost use Rattle.std.specs.Prelude.{◌≡◌};
ghost use Rattle.std.specs.List.{find};
ghost use Rattle.std.specs.Option.{option_copied};
ghost use Rattle.sip_duel.specs.Lying.{point_after, is_about, talk_start};

use arrayvec::ArrayVec;
use sip_vector::CAP;
use sip_wire::Message;
use std::marker::Model;

/// What a liar replies at one point of a talk. Contracts see the point, by a number and a list of
/// numbers, and the bytes of the reply.
#[derive(Drop)]
pub struct Lie {
    query: u8,
    revealed: Vec<u64>,
    reply: Vec<u8>,
}

impl Model for Lie {
    ghost use Rattle.sip_duel.specs.Lying.{LieRow};

    ghost Value = { LieRow };

    ghost view = { λ l. record {
      query = l.query;
      revealed = l.revealed.items;
      reply = l.reply.items;
    } };
}

impl Lie {
    /// A reply of these bytes, where this query was asked last, counted from 1, and these
    /// challenges were revealed since. No byte is a lie as well: the talk ends there.
    pub fn new(query: u8, revealed: Vec<u64>, reply: Vec<u8>) -> Lie
        ensures { result ≡ record {
          query = query;
          revealed = revealed.items;
          reply = reply.items;
        } }
    {
        Lie {
            query,
            revealed,
            reply,
        }
    }

    /// The bytes of the reply.
    pub(crate) fn reply(&self) -> &[u8]
        ensures { result.now ≡ self.now.reply }
    {
        &self.reply
    }

    /// Whether it is about this point.
    fn is_about(&self, point: &Point) -> bool
        ensures { result ≡ is_about point.now self.now }
    {
        self.query == point.queries && self.revealed[..] == point.revealed[..]
    }
}

/// A point of a talk: how many queries were asked, at most 255, and the challenges that were
/// revealed since the last one, at most [`CAP`].
#[derive(Drop)]
pub(crate) struct Point {
    queries: u8,
    revealed: ArrayVec<u64, CAP>,
}

impl Model for Point {
    ghost use Rattle.sip_duel.specs.Lying.{TalkPoint};

    ghost Value = { TalkPoint };

    ghost view = { λ p. record { queries = p.queries; revealed = p.revealed.items } };
}

impl Point {
    /// Nothing was asked yet.
    pub(crate) fn start() -> Point
        ensures { result ≡ talk_start }
    {
        Point {
            queries: 0,
            revealed: ArrayVec::new(),
        }
    }

    /// The point behind a message; `None` where it is one more than is kept.
    pub(crate) fn after(self, message: &Message) -> Option<Point>
        ensures { result ≡ point_after message.now self }
    {
        let Point {
            queries,
            mut revealed,
        } = self;
        match message {
            Message::Query(_) => Some(Point {
                queries: queries.checked_add(1)?,
                revealed: ArrayVec::new(),
            }),
            Message::Reveal { challenge } => {
                revealed.try_push(*challenge).ok()?;
                Some(Point { queries, revealed })
            }
            _ => Some(Point { queries, revealed }),
        }
    }
}

/// The first of these lies that is about this point.
pub(crate) fn first_lie<'a>(lies: &'a [Lie], point: &Point) -> Option<&'a Lie>
    ensures { option_copied result ≡ find (is_about point.now) lies.now }
{
    lies.iter().find(|lie| lie.is_about(point))
}
