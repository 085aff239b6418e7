//! Clauses by their names: of the truth, of the goal, of six facts, and of two rows that every axiom has.

ghost use Rattle.std.specs.Prelude.{◌≡◌, List, Option, Some, None, slice_get, option_map, take};
ghost use Rattle.clause_core.specs.declared.Hint.TheVariants.{Truth, Goal, Fact, Step, Axiom};
ghost use Rattle.clause_cases.specs.declared.table.Row.{Row as RowData};

use crate::parsing::{hint, literal};
use case_lines::cut_word;
use clause_core::{BitName, Clauses, Hint, Lit};

/// A clause: the first of these literals, so many of them.
#[derive(Clone, Copy)]
struct Row {
    count: u32,
    lits: [Lit; 3],
}

/// The clause of these literals, of which the first three count.
fn row_of(words: &str) -> Row {
    let mut lits = [Lit {
        on: true,
        of: BitName::Truth,
    }; 3];
    let mut count = 0u32;
    for word in words.split_whitespace() {
        if let Some(lit) = literal(word) {
            if let Some(slot) = lits.get_mut(count as usize) {
                *slot = lit;
                count = count.saturating_add(1);
            }
        }
    }
    Row { count, lits }
}

/// Clauses by their names. Each axiom of a row has that row, whatever its term, part and bit.
#[derive(Clone, Copy)]
pub struct Table {
    truth: Row,
    goal: Row,
    facts: [Row; 6],
    rows: [Row; 2],
}

impl Table {
    /// Clauses without a literal.
    pub fn new() -> Table {
        let none = row_of("");
        Table {
            truth: none,
            goal: none,
            facts: [none; 6],
            rows: [none; 2],
        }
    }

    /// Names a clause, and tells whether the name is one of the table's.
    pub fn name(&mut self, text: &str) -> bool {
        let (name, words) = cut_word(text);
        let Some(slot) = self.slot(hint(name)) else {
            return false;
        };
        *slot = row_of(words);
        true
    }

    /// Where the clause with a name stands.
    fn slot(&mut self, name: Option<Hint>) -> Option<&mut Row> {
        match name {
            Some(Hint::Truth) => Some(&mut self.truth),
            Some(Hint::Goal) => Some(&mut self.goal),
            Some(Hint::Fact(number)) => self.facts.get_mut(number as usize),
            Some(Hint::Axiom { row, .. }) => self.rows.get_mut(row as usize),
            _ => None,
        }
    }

    /// The clause with a name.
    fn row(&self, name: Hint) -> Option<Row>
        ensures { result ≡ (elim name as (λ _. Option RowData) [
          | Truth ↦ Some self.now.truth
          | Goal ↦ Some self.now.goal
          | Fact n ↦ slice_get self.now.facts n
          | Step n ↦ None
          | Axiom t p b r ↦ slice_get self.now.rows r
        ]) }
    {
        match name {
            Hint::Truth => Some(self.truth),
            Hint::Goal => Some(self.goal),
            Hint::Fact(number) => self.facts.get(number as usize).copied(),
            Hint::Step(_) => None,
            Hint::Axiom { row, .. } => self.rows.get(row as usize).copied(),
        }
    }
}

impl Clauses for Table {
    ghost use Rattle.std.specs.Prelude.{List, Option, Some, None, slice_get, option_map, take, refl};
    ghost use Rattle.clause_core.specs.declared.Hint.TheVariants.{Truth, Goal, Fact, Step, Axiom};
    ghost use Rattle.clause_core.specs.declared.Lit.{Lit};
    ghost use Rattle.clause_cases.specs.declared.table.Row.{Row as RowData};

    ghost clause = { λ table name. option_map (λ (r : RowData). take r.count r.lits) (elim name as (λ _. Option RowData) [
      | Truth ↦ Some table.truth
      | Goal ↦ Some table.goal
      | Fact n ↦ slice_get table.facts n
      | Step n ↦ None
      | Axiom t p b r ↦ slice_get table.rows r
    ]) };

    fn length(&self, name: Hint) -> Option<u32> {
        let row = self.row(name)?;
        Some(row.count.min(3))
    }

    fn literal(&self, name: Hint, index: u32) -> Option<Lit> {
        let row = self.row(name)?;
        if index < row.count.min(3) {
            Some(row.lits[index as usize])
        } else {
            None
        }
    }

    ghost no_steps = { λ table n. refl };
}
