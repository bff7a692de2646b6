// Clauses that stand in memory and are only read: their literals one after the other, and for each clause
// two words, where its literals begin and where they end.
ghost use Rattle.std.specs.Prelude.{◌≡◌, ◌/◌, ◌<◌, length, IsTrue, ◌↔◌};
ghost use Rattle.clauses.specs.Stores.{clause_at, formula, Known, Stored, AreSpans, ParsedIf};

use std::marker::Model;

// Clauses of so many variables' literals.
#[derive(Drop)]
pub struct Clauses<'a> {
    variables: usize,
    spans: &'a [u32],
    words: &'a [u32],
    count: usize,
}

impl<'a> Model for Clauses<'a> {
    ghost use Rattle.clauses.specs.Views.{ClausesView};

    ghost Value = { ClausesView };

    ghost use Rattle.clauses.specs.Keeping.{list_view, IsList};

    ghost view = { list_view };

    ghost invariant = { IsList };
}

// Whether every literal is one of so many variables.
pub fn all_known(clause: &[u32], variables: usize) -> bool
    ensures { IsTrue result ↔ Known variables clause.now }
{
    clause
        .iter()
        .all(|literal| ((*literal / 2) as usize) < variables)
}

// Whether words are spans: each begins before or where it ends, at a word or behind the last one. They
// are gone through by number, of which the promise speaks.
fn are_spans(spans: &[u32], words: usize) -> bool
    ensures { IsTrue result ↔ AreSpans spans.now words }
{
    for number in 0..spans.len() / 2 {
        let from = spans[2 * number];
        let to = spans[2 * number + 1];
        if from > to || to as usize > words {
            return false;
        }
    }
    true
}

impl<'a> Clauses<'a> {
    // The clauses that stand in memory; None where spans and words are no clauses of so many variables.
    pub fn parse(variables: usize, spans: &'a [u32], words: &'a [u32]) -> Option<Clauses<'a>>
        ensures { ParsedIf variables spans.now words.now result }
    {
        if words.len() > 0xffff_ffff
            || !all_known(words, variables)
            || !are_spans(spans, words.len())
        {
            return None;
        }
        Some(Clauses::new(variables, spans, words, spans.len() / 2))
    }

    // Clauses of which it is known that they stand there.
    pub fn new(variables: usize, spans: &'a [u32], words: &'a [u32], count: usize) -> Clauses<'a>
        requires { Stored variables spans.now words.now count (length words.now) }
        ensures variables { result.variables ≡ variables }
        ensures formula { result.formula ≡ formula spans.now words.now count }
        ensures long { length result.formula ≡ count }
    {
        Clauses {
            variables,
            spans,
            words,
            count,
        }
    }

    pub fn variables(&self) -> usize
        ensures { result ≡ self.now.variables }
    {
        self.variables
    }

    // How many clauses there are.
    pub fn len(&self) -> usize
        ensures { result ≡ length self.now.formula }
    {
        self.count
    }

    // The literals of a clause.
    pub fn clause(&self, number: usize) -> &'a [u32]
        requires { number < length self.now.formula }
        ensures is { result.now ≡ clause_at self.now.formula number }
        ensures known { Known self.now.variables result.now }
    {
        prove!(number < self.count);
        let from = self.spans[2 * number] as usize;
        let to = self.spans[2 * number + 1] as usize;
        prove!(from <= to);
        prove!(to <= self.words.len());
        &self.words[from..to]
    }
}
