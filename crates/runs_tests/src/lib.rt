// Runs, tried on a small plan.
#![tactic(auto)]

#[cfg(test)]
mod tests {
    use examples::plans::wet_hole;
    use runs::sheet::{Readiness, RunSheet};
    use runs::state::{Check, Closed};
    use runs::walk::walk;
    use std::test::Fail;
    use walks::parts::{Event, Report, Telling};

    fn told(minute: u32, jobs: u32) -> Event {
        Event::Told(Telling { minute, jobs })
    }

    // The outcome of the check `wet`.
    fn reported(yes: bool) -> Event {
        Event::Reported(Report { check: 0, yes })
    }

    #[test]
    fn a_new_sheet_tells_start(rt: HostRuntime) -> Result<(), Fail> {
        let sheet = RunSheet::new(rt.alloc())?;
        let walked = walk(&sheet, &[]);
        assert_eq!(rt; walked.ending, Ok(Closed { jobs: 1, last: 0 }));
        assert_eq!(rt; walked.log.events(), [told(0, 1)].as_slice());
        Ok(())
    }

    #[test]
    fn told_no(rt: HostRuntime) -> Result<(), Fail> {
        let book = wet_hole(rt.alloc())?;
        let mut sheet = RunSheet::new(rt.alloc())?;
        assert_eq!(rt; sheet.make_ready(&book), Readiness::Yes);
        let walked = walk(&sheet, &[false]);
        assert_eq!(rt; walked.ending, Ok(Closed { jobs: 4, last: 61 }));
        assert_eq!(rt;
            walked.log.events(),
            [told(0, 1), told(60, 2), reported(false), told(61, 24)].as_slice()
        );
        Ok(())
    }

    #[test]
    fn told_yes(rt: HostRuntime) -> Result<(), Fail> {
        let book = wet_hole(rt.alloc())?;
        let mut sheet = RunSheet::new(rt.alloc())?;
        assert_eq!(rt; sheet.make_ready(&book), Readiness::Yes);
        let walked = walk(&sheet, &[true]);
        assert_eq!(rt; walked.ending, Ok(Closed { jobs: 4, last: 155 }));
        assert_eq!(rt;
            walked.log.events(),
            [
                told(0, 1),
                told(60, 2),
                reported(true),
                told(65, 4),
                told(155, 8)
            ]
            .as_slice()
        );
        Ok(())
    }

    #[test]
    fn told_nothing(rt: HostRuntime) -> Result<(), Fail> {
        let book = wet_hole(rt.alloc())?;
        let mut sheet = RunSheet::new(rt.alloc())?;
        assert_eq!(rt; sheet.make_ready(&book), Readiness::Yes);
        let walked = walk(&sheet, &[]);
        assert_eq!(rt; walked.ending, Err(Check { number: 0, job: 1 }));
        assert_eq!(rt; walked.used, 0);
        Ok(())
    }
}
