// The rule systems of a plan, tried on the plan of a wet hole.
#![tactic(auto)]

#[cfg(test)]
mod tests {
    use examples::plans::wet_hole;
    use rules::parts::{Alternative, Origin};
    use rules::system::{RuleSystem, WithOrigins};
    use std::test::Fail;
    use systems::{dynamic_system, strong_system, weak_system};

    // A rule as it is expected: the place held, how many alternatives it has, and the last of them.
    #[derive(Clone, Copy)]
    struct Expected {
        held: usize,
        count: usize,
        last: Alternative,
    }

    fn rule(held: usize, place: usize, minutes: i32) -> Expected {
        Expected {
            held,
            count: 1,
            last: Alternative { place, minutes },
        }
    }

    fn last_of_two(held: usize, place: usize, minutes: i32) -> Expected {
        Expected {
            count: 2,
            ..rule(held, place, minutes)
        }
    }

    // Whether rule `r` is the one expected.
    fn is_rule<S: RuleSystem>(system: &S, r: usize, expected: Expected) -> bool {
        let Expected { held, count, last } = expected;
        system.held(r) == Some(held)
            && system.alternatives(r) == Some(count)
            && system.alternative(r, count.saturating_sub(1)) == Some(last)
    }

    // Whether the system has the rules expected, and no other.
    fn has_rules<S: RuleSystem>(system: &S, rules: &[Expected]) -> bool {
        system.rules() == rules.len()
            && rules
                .iter()
                .enumerate()
                .all(|(r, expected)| is_rule(system, r, *expected))
    }

    #[test]
    fn strong_rules(rt: HostRuntime) -> Result<(), Fail> {
        let book = wet_hole(rt.alloc())?;
        let system = strong_system(&book);
        let rules = [
            rule(1, 0, 60),
            rule(2, 1, 5),
            rule(3, 2, 90),
            rule(1, 4, -20),
            rule(4, 3, -10),
            rule(1, 0, 0),
            rule(2, 0, 0),
            rule(3, 0, 0),
            rule(4, 0, 0),
            rule(2, 1, 1),
            rule(4, 1, 1),
        ];
        assert_eq!(rt; system.places(), 5);
        assert!(rt; has_rules(&system, &rules));
        assert_eq!(rt; system.origin(4), Some(Origin::Bound(4)));
        assert_eq!(rt; system.origin(5), Some(Origin::Start(1)));
        assert_eq!(rt; system.origin(10), Some(Origin::Check(0, 4)));
        Ok(())
    }

    #[test]
    fn weak_rules(rt: HostRuntime) -> Result<(), Fail> {
        let book = wet_hole(rt.alloc())?;
        let system = weak_system(&book, 0);
        let rules = [
            rule(1, 0, 60),
            rule(1, 4, -20),
            rule(4, 3, -10),
            rule(1, 0, 0),
            rule(3, 0, 0),
            rule(4, 0, 0),
            rule(4, 1, 1),
        ];
        assert_eq!(rt; system.places(), 5);
        assert!(rt; has_rules(&system, &rules));
        assert_eq!(rt; system.origin(1), Some(Origin::Bound(3)));
        assert_eq!(rt; system.origin(4), Some(Origin::Start(3)));
        assert_eq!(rt; system.origin(6), Some(Origin::Check(0, 4)));
        Ok(())
    }

    #[test]
    fn dynamic_rules(rt: HostRuntime) -> Result<(), Fail> {
        let book = wet_hole(rt.alloc())?;
        let system = dynamic_system(&book);
        let rules = [
            rule(1, 0, 60),
            rule(1, 4, -20),
            rule(4, 3, -10),
            rule(1, 0, 0),
            rule(3, 0, 0),
            rule(4, 0, 0),
            rule(4, 1, 1),
            rule(6, 5, 60),
            rule(7, 6, 5),
            rule(8, 7, 90),
            rule(6, 5, 0),
            rule(7, 5, 0),
            rule(8, 5, 0),
            rule(7, 6, 1),
            last_of_two(0, 1, 1),
            last_of_two(1, 1, 1),
            last_of_two(3, 1, 1),
            last_of_two(5, 6, 1),
            last_of_two(6, 6, 1),
            last_of_two(8, 6, 1),
        ];
        assert_eq!(rt; system.places(), 10);
        assert!(rt; has_rules(&system, &rules));
        Ok(())
    }
}
