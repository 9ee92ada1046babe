// Lists of rules: those of a file, and those that a caller keeps.
ghost use Rattle.std.specs.Prelude.{◌≡◌, List, map, length, slice_index_or};
ghost use Rattle.std.specs.List.{slice_get};
ghost use Rattle.routing.specs.declared.ends.Ends.{Ends as Pair};
ghost use Rattle.file.specs.Contents.{blank, rows_of, decisions_of, row_of_rule, decision_of_rule};

use crate::checks::{Counted, NO_ENDS};
use crate::number::part_of;
use crate::reader::TableFile;
use decision::kind::Kind;
use routing::ends::Ends;
use routing::rule::Rule;

// The intervals and the decision of each rule, in order. Rules count from 0 here.
pub trait Rules<K: Kind> {
    ghost rows: { Self → List (List Pair) };

    ghost decisions: { Self → List K };

    fn count(&self) -> usize
        ensures of_rows { result ≡ length (rows self.now) }
        ensures of_decisions { result ≡ length (decisions self.now) };

    // The pairs of a rule, all [0, 0] where there is none: by a rule of the project no array passes through an option.
    fn row(&self, rule: usize) -> [Ends; 8]
        ensures { result ≡ slice_index_or (rows self.now) rule blank };

    fn decision(&self, rule: usize) -> Option<K>
        ensures { result ≡ slice_get (decisions self.now) rule };
}

impl<'a, K: Kind> Rules<K> for TableFile<'a, K> {
    ghost rows = { λ f. rows_of f.bytes.now };

    ghost decisions = { λ f. decisions_of K.reading K.SIZE f.bytes.now };

    #[tactic(auto, using(crate::proofs::Parts::counted_length))]
    fn count(&self) -> usize {
        usize::from(self.layout().rules)
    }

    #[tactic(auto, using(crate::proofs::Parts::row_counted, crate::proofs::Parts::row_beyond))]
    fn row(&self, rule: usize) -> [Ends; 8] {
        match self.rule(rule) {
            Some(rule) => Counted::new(self.bytes, K::SIZE).row(rule),
            None => [NO_ENDS; 8],
        }
    }

    #[tactic(auto, using(crate::proofs::Parts::decision_counted, crate::proofs::Parts::decision_beyond))]
    fn decision(&self, rule: usize) -> Option<K> {
        let at = self.layout().decision(self.rule(rule)?);
        Some(K::read(part_of(self.bytes, at, usize::from(K::SIZE))))
    }
}

// Rules that a caller keeps in a row.
#[derive(Clone, Copy)]
pub struct RuleList<'a, K> {
    pub rules: &'a [Rule<K>],
}

impl<'a, K: Kind> Rules<K> for RuleList<'a, K> {
    ghost rows = { λ l. map row_of_rule l.rules.now };

    ghost decisions = { λ l. map decision_of_rule l.rules.now };

    fn count(&self) -> usize {
        self.rules.len()
    }

    fn row(&self, rule: usize) -> [Ends; 8] {
        match self.rules.get(rule) {
            Some(found) => found.ends,
            None => [NO_ENDS; 8],
        }
    }

    fn decision(&self, rule: usize) -> Option<K> {
        self.rules.get(rule).map(|found| found.decision)
    }
}
