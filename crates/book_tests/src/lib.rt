// The book, tried on lists of calls.
#![tactic(auto)]

#[cfg(test)]
mod tests {
    use book::list::carry_out;
    use book::parts::{Answer, Bound, Call, Kind, Label, Refusal};
    use std::test::Fail;

    // The number of the refusal, if the call is refused: the tests hold the numbers, as a plan's author sees them.
    fn refusal(answer: Answer) -> Option<u8> {
        answer.err().map(Refusal::number)
    }

    // A call that adds a bound. The programs and tests that have one alike stand on other crates.
    fn bound(first: usize, second: usize, minutes: i32) -> Call {
        Call::AddBound(Bound {
            kind: Kind::Least,
            first,
            second,
            minutes,
        })
    }

    // Check 0 is `wet`; `pump` wants yes of it and `seal` no.
    #[test]
    fn bounds_are_taken_or_refused(rt: HostRuntime) -> Result<(), Fail> {
        let wet = Call::AddCheck(Label::default());
        let pump = Call::AddJob(Label { yes: 1, no: 0 });
        let seal = Call::AddJob(Label { yes: 0, no: 1 });
        let calls = [
            wet,
            pump,
            seal,
            bound(0, 1, 4320),
            bound(0, 1, 4321),
            bound(2, 3, 5),
        ];
        let carried = carry_out(rt.alloc(), &calls)?;
        assert_eq!(rt; carried.given.len(), 6);
        assert_eq!(rt; refusal(carried.given[3]), None);
        assert_eq!(rt; refusal(carried.given[4]), Some(7));
        assert_eq!(rt; refusal(carried.given[5]), Some(9));
        assert_eq!(rt; carried.book.bounds().len(), 1);
        Ok(())
    }

    // Check 1 is `core`, on a no of `wet`: a job on a yes of `core` wants a no of `wet` too.
    #[test]
    fn labels_are_whole_or_refused(rt: HostRuntime) -> Result<(), Fail> {
        let wet = Call::AddCheck(Label::default());
        let core = Call::AddCheck(Label { yes: 0, no: 1 });
        let part = Call::AddJob(Label { yes: 2, no: 0 });
        let whole = Call::AddJob(Label { yes: 2, no: 1 });
        let carried = carry_out(rt.alloc(), &[wet, core, part, whole])?;
        assert_eq!(rt; carried.given.len(), 4);
        assert_eq!(rt; refusal(carried.given[1]), None);
        assert_eq!(rt; refusal(carried.given[2]), Some(5));
        assert_eq!(rt; refusal(carried.given[3]), None);
        assert_eq!(rt; carried.book.jobs().len(), 4);
        Ok(())
    }
}
