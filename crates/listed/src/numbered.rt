// Rows with their numbers.
ghost use Rattle.rules.specs.declared.parts.Origin.TheVariants.{Bound};
ghost use Rattle.rules.specs.Rows.{rule_of};

use rules::parts::{Alternative, Origin};
use rules::rows::Row;
use rules::stored::{StoredRule, Traced};

// A row, and its number in the list: its rule's origin is a bound of that number. A small number, since a table has 8,192 of these.
#[derive(Clone, Copy, Debug, Default, PartialEq, Eq)]
pub struct Numbered {
    pub row: Row,
    pub number: u16,
}

impl StoredRule for Numbered {
    ghost rule = { λ x. rule_of x.row };

    fn held(&self) -> usize {
        self.row.held()
    }

    fn count(&self) -> usize {
        self.row.count()
    }

    fn alternative(&self, a: usize) -> Option<Alternative> {
        self.row.alternative(a)
    }
}

impl Traced for Numbered {
    ghost source = { λ x. Bound x.number };

    fn origin(&self) -> Origin {
        Origin::Bound(usize::from(self.number))
    }
}
