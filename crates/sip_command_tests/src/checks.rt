// Worked runs, each as it has to be.
ghost use Rattle.std.specs.Prelude.{◌≤◌};

use crate::case::Case;
use crate::row::Row;
use sip_advice::exit_code;
use std::alloc::Global;
use std::process::Abort;
use std::test::Fail;

impl Row<'_> {
    // Runs it in single bytes, and in pieces that are as long as is asked for.
    pub(crate) fn check(&self, rt: &impl Abort, alloc: Global) -> Result<(), Fail> {
        self.check_in(rt, alloc, 1)?;
        self.check_in(rt, alloc, 10_000)
    }

    // Runs it over ports that move at most a chunk in a call.
    pub(crate) fn check_in(&self, rt: &impl Abort, alloc: Global, chunk: usize) -> Result<(), Fail>
        requires { 1 ≤ chunk }
    {
        let talk = self.talk(alloc)?;
        let shown = self.given.run(alloc, chunk, None)?;
        let case = Case {
            name: self.name,
            number: chunk as u64,
        };
        case.ends(shown.status, self.status).expect(rt, "a case");
        case.holds(exit_code(&shown.status) == self.code)
            .expect(rt, "a case");
        case.writes(shown.report.bytes(), self.report)
            .expect(rt, "a case");
        case.says(shown.peer.talk(), &talk).expect(rt, "a case");
        Ok(())
    }
}

// Runs each of them in single bytes, and in pieces that are as long as is asked for.
pub(crate) fn check_rows(rt: &impl Abort, alloc: Global, rows: &[Row]) -> Result<(), Fail> {
    for row in rows {
        row.check(rt, alloc)?;
    }
    Ok(())
}
