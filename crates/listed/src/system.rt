// The rule system of a list of rows.
ghost use Rattle.std.specs.Prelude.{◌≡◌, map, length};
ghost use Rattle.listed.specs.Numbered.{bound_of, numbered};

use crate::numbered::Numbered;
use rules::collected::Collected;
use rules::parts::{Alternative, Origin};
use rules::system::{RuleSystem, WithOrigins};

// Places, and the rules of numbered rows over them: each rule's origin is a bound of its own number.
#[derive(Drop)]
pub struct Listed {
    pub(crate) system: Collected<Numbered, 8192>,
    ghost by_number: { map bound_of system.table ≡ numbered (length system.table) 0 },
}

impl RuleSystem for Listed {
    ghost use Rattle.rules.specs.Rows.{system_by};
    ghost use Rattle.listed.specs.Numbered.{row_rule};

    ghost meaning = { λ x. system_by row_rule x.system.places x.system.table };

    ghost sound = { λ x. x.system.sound };

    fn places(&self) -> usize {
        self.system.places()
    }

    fn rules(&self) -> usize {
        self.system.rules()
    }

    fn held(&self, r: usize) -> Option<usize> {
        self.system.held(r)
    }

    fn alternatives(&self, r: usize) -> Option<usize> {
        self.system.alternatives(r)
    }

    fn alternative(&self, r: usize, a: usize) -> Option<Alternative> {
        self.system.alternative(r, a)
    }
}

impl WithOrigins for Listed {
    ghost origins = { λ x. numbered (length x.system.table) 0 };

    fn origin(&self, r: usize) -> Option<Origin> {
        self.system.origin(r)
    }
}
