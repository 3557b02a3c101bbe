//! The parts of the page about sketches, and about the helper with a file.

// The parts before, and those about begin, watch, merge, seats, ask and serve.
macro_rules! with_sketches {
    ($which:ident $($part:literal)*) => {
        chosen!(
            $which
            $($part)*
            "  sip begin SKETCH SEED DEPTH PART/PARTS SEATS..

      Makes the file of what a verifier keeps of a stream, the sketch, with no
      records in it yet. Records are added by sip watch.

      SKETCH      the new file; one that is there is never begun anew
      SEED        a file that begins with 32 random bytes, for this sketch and
                  its other parts alone; it may be destroyed then
      DEPTH       from 1 to 48; items are the numbers below 2^DEPTH
      PART/PARTS  1/1; or, of several collectors of one stream, the number of
                  this one and how many they are
      SEATS       entries:N      N seats for sub, index, pred and succ
                  sums:SIDE:N    for range, f2 and moment of a side
                  products:N     for inner
                  heavy:SIDE:N   for heavy and share of a side
                  above:SIDE:N   for above of a side
                  with SIDE 0 or 1, and N from 1; 64 seats in all

      A question uses a seat, and a seat serves one question. A record costs at
      most DEPTH multiplications for each seat of its side. Whoever reads the
      sketch can make any answer accepted: it has mode 600.

      sip begin web.sketch web.seed 20 1/1 entries:16 sums:0:8 heavy:0:4
"
            "  sip watch SKETCH STORED AT EVERY

      Adds the records of a file that the sketch does not have yet.

      STORED  a file of records, or wide:PATH or text:PATH as for sip verify
      AT      the number of its first record among all that the sketch has, from
              0; or + where all of them are new
      EVERY   after how many records the sketch is replaced, so that a run that
              is killed has them; or - for the end alone

      It may be run again over the same log, grown longer: each record is added
      once. Where the log ends in half a record it ends with 3 and says so, with
      all records before it added.

      sip watch web.sketch text:web.log 0 10000
"
            "  sip merge SKETCH PART..

      Makes SKETCH the sum of the sketches of several collectors.

      SKETCH  the file of the sum: a new one, or an earlier sum, of which seats
              that were used stay used
      PART    1 to 1024 files, in the order of their parts, none left out

      Watch the parts, then merge them, then ask the sum; and so again when the
      parts have grown. A sum that has all parts is no part of another.

      sip merge all.sketch one.sketch two.sketch three.sketch
"
            "  sip seats SKETCH

      Shows a sketch: its depth, parts, records and fingerprint, the sides that
      had numbers below 0, and which seats are used. No challenge is shown.

      sip seats web.sketch
"
            "  sip ask SKETCH FROM TO QUESTION..

      Asks 1 to 16 questions about the stream that SKETCH was kept of, of a
      helper that has it in a file, checks the replies and prints a line for
      each answer. What is asked is chosen now: the stream went by before.

      SKETCH    the file of a sketch that has all parts in
      FROM      the file or FIFO that brings the helper's bytes, or - for
                standard input
      TO        the file or FIFO that takes ours
      QUESTION  a QUERY of sip verify, a LOOKUP of sip lookup, a MOMENT of sip
                moments, or above:SIDE:T, the entries of a side that are T or
                more, whatever was added; in any order, with items below 2^DEPTH
                of the sketch

      First the helper says what it holds: where its stream is not that of the
      sketch, nothing is asked and no seat is lost. Then each question takes the
      first unused seat that serves it, which is used from then on, whatever
      comes: the file says so before the question is sent. heavy and share are
      not asked of a side that had a number below 0; above is. They take no seat
      where T is more than the whole side: for above, all that was added with
      signs left out. The wait for the helper has no limit but one
      that stands before the command, as timeout 60 sip ask .. does.

      sip ask web.sketch from.fifo to.fifo sub:100:199 succ:7 moment:0:3
"
            "  sip serve STORED FROM TO

      Is the helper of sip ask: has the stream in a file, and answers questions
      of every kind about its first records, as many as the sketch has.

      STORED  a file of records, or wide:PATH or text:PATH as for sip verify; it
              may grow between two talks, and is read twice where above is asked
      FROM    the file or FIFO that brings the other side's bytes, or - for
              standard input
      TO      the file or FIFO that takes ours, or - for standard output

      One run serves one talk. Memory grows with the entries that are not 0.

      sip serve text:web.log - -
"
        )
    };
}

pub(crate) use with_sketches;
