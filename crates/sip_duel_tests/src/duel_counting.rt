// A helper that counts what is called of it.

use sip_duel::{Helper, Honest, More};
use sip_field::OutOfMemory;
use sip_ports::MemorySink;
use sip_wire::Message;
use std::alloc::Global;
use std::cell::Cell;
use std::rc::Rc;
use std::test::Fail;

// A count that a helper and its test share.
type Count = Rc<Cell<u32>>;

fn count_one(count: &Count) {
    count.set(count.get().wrapping_add(1));
}

// How often a helper was heard, asked, closed and dropped.
#[derive(Drop)]
pub(crate) struct Watched {
    heard: Count,
    asked: Count,
    closed: Count,
    dropped: Count,
}

impl Watched {
    pub(crate) fn new(alloc: Global) -> Result<Watched, Fail> {
        Ok(Watched {
            heard: Rc::new(alloc, Cell::new(0))?,
            asked: Rc::new(alloc, Cell::new(0))?,
            closed: Rc::new(alloc, Cell::new(0))?,
            dropped: Rc::new(alloc, Cell::new(0))?,
        })
    }

    // Those of three helpers.
    pub(crate) fn three(alloc: Global) -> Result<[Watched; 3], Fail> {
        Ok([
            Watched::new(alloc)?,
            Watched::new(alloc)?,
            Watched::new(alloc)?,
        ])
    }

    // A helper that has as many answers of an honest one. Behind them memory is refused to it where
    // it fails, and else it has ended.
    fn counting(&self, honest: Honest, answers: u32, fails: bool) -> Result<Counting, Fail> {
        let watched = Watched {
            heard: Rc::clone(&self.heard)?,
            asked: Rc::clone(&self.asked)?,
            closed: Rc::clone(&self.closed)?,
            dropped: Rc::clone(&self.dropped)?,
        };
        Ok(Counting {
            watched,
            honest,
            answers,
            fails,
        })
    }

    // A helper whose first answer is a refusal, where it gives one: that of an end before the
    // opening.
    pub(crate) fn helper(&self, alloc: Global, gives: bool, fails: bool) -> Result<Counting, Fail> {
        let mut stray = Honest::new(alloc);
        stray.hear(&Message::EndStream);
        self.counting(stray, u32::from(gives), fails)
    }

    pub(crate) fn honest(&self, alloc: Global) -> Result<Counting, Fail> {
        self.counting(Honest::new(alloc), u32::MAX, false)
    }

    pub(crate) fn heard(&self) -> u32 {
        self.heard.get()
    }

    pub(crate) fn asked(&self) -> u32 {
        self.asked.get()
    }

    // It was closed and dropped once.
    pub(crate) fn is_let_go(&self) -> bool {
        self.closed.get() == 1 && self.dropped.get() == 1
    }

    // It was heard and asked so often, and closed and dropped once.
    pub(crate) fn is_gone(&self, heard: u32, asked: u32) -> bool {
        self.heard() == heard && self.asked() == asked && self.is_let_go()
    }
}

pub(crate) struct Counting {
    watched: Watched,
    honest: Honest,
    answers: u32,
    fails: bool,
}

impl Drop for Counting {
    fn drop(self) {
        count_one(&self.watched.dropped);
        let Counting {
            watched: _,
            honest: _,
            answers: _,
            fails: _,
        } = self;
    }
}

impl Helper for Counting {
    ghost use Rattle.std.specs.Prelude.{None};

    ghost honest_state = { λ _. None };

    fn hear(&mut self, message: &Message) {
        count_one(&self.watched.heard);
        self.honest.hear(message);
    }

    fn answer(&mut self, out: &mut MemorySink) -> Result<More, OutOfMemory> {
        count_one(&self.watched.asked);
        if self.answers > 0 {
            self.answers -= 1;
            return self.honest.answer(out);
        }
        if self.fails {
            Err(OutOfMemory)
        } else {
            Ok(More::Ended)
        }
    }

    fn close(&mut self) {
        count_one(&self.watched.closed);
    }
}
