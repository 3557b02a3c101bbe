//! The parts of the page about the commands that ask and help, and about streams and transcripts.

// The parts about verify, play, panel, help, lookup, helplook, moments, helpmom, audit, show,
// convert, gen, lines and widen, for a part's name or for `page`.
macro_rules! text_of {
    ($which:ident) => {
        with_sketches!(
            $which
            "  sip verify STREAM SEED FROM TO RECORD DEPTH QUERY..

      Sends the stream to a helper, asks 1 to 16 queries, checks the replies and
      prints a line for each answer.

      STREAM  a file of records, or wide:PATH, which is a file of wide records,
              or text:PATH, which is a file of lines as sip lines prints them,
              or made:NUMBER:COUNT, which is COUNT records made from NUMBER
      SEED    a file that begins with 32 random bytes, of which each run needs
              new ones
      FROM    the file or FIFO that brings the helper's bytes
      TO      the file or FIFO that takes ours
      RECORD  the file that gets the transcript of the run: its queries, their
              challenges and the helper's replies; or - for none
      DEPTH   from 1 to 48; items are the numbers below 2^DEPTH
      QUERY   sub:LO:HI           the entries of side 0 from LO to HI that are
                                  not 0
              range:SIDE:LO:HI    the sum of the entries of a side from LO to HI
              f2:SIDE             the sum of the squares of the entries of a
                                  side
              inner               the sum of the products of the entries of both
                                  sides
              heavy:SIDE:T        the entries of a side that are T or more
              share:SIDE:NUM:DEN  the entries of a side that are NUM/DEN of its
                                  total or more
              with LO up to HI, HI below 2^DEPTH, SIDE 0 or 1, T from 1 to
              2^63 - 1, and NUM from 1 to DEN, which is up to 1000000. The last
              two are answered where no entry of the side is below 0.

      sip verify log.stream today.seed from.fifo to.fifo - 20 sub:100:199 range:0:0:1048575 inner
"
            "  sip play STREAM SEED HELPER RECORD DEPTH QUERY..

      Does what sip verify does with a helper of its own, and needs no other
      program: to see what is asked and answered.

      HELPER  honest, which answers as it should; skewed, which counts item 0 of
              side 0 once more, so that its answers about that side are
              rejected; mute, which says nothing, so that the first query is
              rejected
              The other words are those of sip verify.

      sip play made:7:100000 today.seed honest - 20 sub:0:99 range:0:0:1048575 f2:0 inner
"
            "  sip panel STREAM SEED HELPERS DEPTH QUERY..

      Does what sip verify does with several helpers of its own, which hear the
      same stream: asks each query of one after another until the replies of one
      are accepted, and prints the line of that answer.

      HELPERS  1 to 16 of honest, skewed and mute, which are those of sip play,
               with a comma between two of them: the first is asked first
               The other words are those of sip verify. The number of helpers
               times that of queries is 16 at most.

      A helper whose reply is rejected is asked no more: dropped helper I query
      K round J REASON is its line among the answers, with I counted from 1 as K
      is. A run is rejected where none is left. Each helper keeps the stream,
      and no transcript is kept.

      sip panel made:7:100000 today.seed mute,skewed,honest 20 sub:0:99 f2:0
"
            "  sip help FROM TO

      Is the helper: keeps the stream that a verifying sip sends, and answers
      its queries.

      FROM    the file or FIFO that brings the verifier's bytes, which is its TO
      TO      the file or FIFO that takes ours, which is its FROM

      sip help to.fifo from.fifo
"
            "  sip lookup STREAM SEED FROM TO DEPTH LOOKUP..

      Sends the stream to a helper, asks 1 to 16 lookups of side 0, checks the
      replies and prints a line for each one.

      LOOKUP  index:I  the entry at I
              pred:I   the nearest entry that is not 0 at I or below, with its
                       item, or none
              succ:I   the nearest entry that is not 0 at I or above, with its
                       item, or none
              with I below 2^DEPTH
              The other words are those of sip verify.

      The helper names the place of the nearest entry, and shows that there is
      none between it and I. A lookup costs at most DEPTH multiplications for
      each record of side 0, and DEPTH + 1 short replies. Memory is a little
      more than 1 MiB, whatever the stream is. No transcript is kept.

      sip lookup log.stream today.seed from.fifo to.fifo 20 index:1 pred:99 succ:100
"
            "  sip helplook FROM TO

      Is the helper of sip lookup: keeps the stream that it sends, and answers
      its lookups.

      FROM    the file or FIFO that brings the other side's bytes, which is its
              TO
      TO      the file or FIFO that takes ours, which is its FROM

      Memory grows with the entries that are not 0, as that of sip help does. A
      lookup costs a search among those of side 0, and then what sub:LO:HI costs
      sip help.

      sip helplook to.fifo from.fifo
"
            "  sip moments STREAM SEED FROM TO DEPTH MOMENT..

      Sends the stream to a helper, asks 1 to 16 moments, checks the replies and
      prints a line for each answer.

      MOMENT  moment:SIDE:K  the sum of the K-th powers of the entries of a
                             side, with SIDE 0 or 1 and K from 3 to 8
              The other words are those of sip verify.

      The second moment is f2 of sip verify. How great K may be depends on the
      weight of the side, as LIMITS say. A moment costs at most DEPTH
      multiplications for each record of its side, and DEPTH replies of K + 1
      numbers. Memory is that of a frame, whatever the stream is. No transcript
      is kept.

      sip moments log.stream today.seed from.fifo to.fifo 20 moment:0:3 moment:1:3
"
            "  sip helpmom FROM TO

      Is the helper of sip moments: keeps the stream that it sends, and answers
      its moments.

      FROM    the file or FIFO that brings the other side's bytes, which is its
              TO
      TO      the file or FIFO that takes ours, which is its FROM

      Memory grows with the entries that are not 0, as that of sip help does,
      and a moment takes as much again for those of its side.

      sip helpmom to.fifo from.fifo
"
            "  sip audit STORED TRANSCRIPT

      Checks a stored run again, without a helper: reads the queries, the
      challenges and the replies from TRANSCRIPT and the stream from STORED, and
      prints the lines that the run printed.

      STORED      the stream that the run was about: a file of records, or
                  wide:PATH or text:PATH as for sip verify
      TRANSCRIPT  the file that sip verify or sip play kept as its RECORD

      sip audit log.stream today.record
"
            "  sip show TRANSCRIPT

      Lists a transcript: its depth, each query with its challenges, and each
      frame of the helper.

      TRANSCRIPT  the file that sip verify or sip play kept as its RECORD

      sip show today.record
"
            "  sip convert TRANSCRIPT

      Writes a transcript with the same content in version 2, in whose frames
      items have eight bytes.

      TRANSCRIPT  as for sip show

      sip convert today.record > wide.record
"
            "  sip gen NUMBER COUNT DEPTH

      Writes a stream of COUNT records that are made from NUMBER: wide records
      where DEPTH is above 32.

      NUMBER  below 2^64
      COUNT   up to 10000000
      DEPTH   from 1 to 48

      sip gen 7 100000 20 > log.stream
"
            "  sip lines STREAM DEPTH

      Prints a stream as lines of text: a side, an item and what is added to its
      entry, with one space between them.

      STREAM  as for sip verify
      DEPTH   from 1 to 48

      sip lines log.stream 20
"
            "  sip widen STREAM DEPTH

      Writes a stream as wide records.

      STREAM  as for sip verify
      DEPTH   from 1 to 48

      sip widen log.stream 20 > wide.stream
"
        )
    };
}

pub(crate) use text_of;
