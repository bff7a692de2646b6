// Clauses that are added one by one, in memory that is lent.
ghost use Rattle.std.specs.Prelude.{◌≡◌, ◌*◌, ◌<◌, ◌≤◌, [], length, sum_by};
ghost use Rattle.clauses.specs.Stores.{clause_at, formula, Known, Stored, InOrder, AddedIf, SameMemory};
ghost use Rattle.clauses.specs.Retaining.{SomeOf, Retains};

use super::list::{Clauses, all_known};
use std::marker::Model;

// Words that are lent, and how many of them are in use: there is no heap.
#[derive(Drop)]
pub struct Store<'a> {
    variables: usize,
    spans: &'a mut [u32],
    words: &'a mut [u32],
    count: usize,
    used: u32,
    // whether the clauses stood in the memory before: only then may they come in any order
    taken: bool,
}

impl<'a> Model for Store<'a> {
    ghost use Rattle.clauses.specs.Views.{StoreView};

    ghost Value = { StoreView };

    ghost use Rattle.clauses.specs.Keeping.{store_view, IsStored};

    ghost view = { store_view };

    ghost invariant = { IsStored };
}

// Why a clause is refused: a literal is of no variable, or there is no room.
#[derive(Clone, Copy, PartialEq, Eq, Debug)]
pub enum Unfit {
    Literal,
    Room,
}

impl<'a> Store<'a> {
    // No clauses yet.
    pub fn new(variables: usize, spans: &'a mut [u32], words: &'a mut [u32]) -> Store<'a>
        ensures variables { result.variables ≡ variables }
        ensures formula { result.formula ≡ [] }
        ensures used { result.used ≡ 0 }
        ensures spans { result.spans ≡ spans.entry }
        ensures words { result.words ≡ words.entry }
    {
        Store {
            variables,
            spans,
            words,
            count: 0,
            used: 0,
            taken: false,
        }
    }

    // So many clauses that stand in the memory already, in so many of its words: one who kept a store's
    // memory takes it up again. Their spans may come in any order, and share words.
    pub fn over(
        variables: usize,
        spans: &'a mut [u32],
        words: &'a mut [u32],
        count: usize,
        used: usize,
    ) -> Store<'a>
        requires { Stored variables spans.old words.old count used }
        ensures variables { result.variables ≡ variables }
        ensures formula { result.formula ≡ formula spans.old words.old count }
        ensures used { result.used ≡ used }
        ensures spans { result.spans ≡ spans.entry }
        ensures words { result.words ≡ words.entry }
    {
        Store {
            variables,
            spans,
            words,
            count,
            used: used as u32,
            taken: true,
        }
    }
}

impl Store<'_> {
    // The clauses, to be read.
    pub fn clauses(&self) -> Clauses<'_>
        ensures variables { result.variables ≡ self.now.variables }
        ensures formula { result.formula ≡ self.now.formula }
    {
        Clauses::new(
            self.variables,
            self.spans,
            &self.words[..self.used as usize],
            self.count,
        )
    }

    pub fn len(&self) -> usize
        ensures is { result ≡ length self.now.formula }
        ensures few { 2 * result ≤ length self.now.spans.now }
    {
        self.count
    }

    pub fn clause(&self, number: usize) -> &[u32]
        requires { number < length self.now.formula }
        ensures is { result.now ≡ clause_at self.now.formula number }
        ensures known { Known self.now.variables result.now }
    {
        self.clauses().clause(number)
    }

    // Adds a clause, or refuses it and changes nothing.
    pub fn add(&mut self, clause: &[u32]) -> Result<(), Unfit>
        ensures added { AddedIf clause.now self.old self.new result }
        ensures in_order { InOrder self.old.spans.now (length self.old.formula) → InOrder self.new.spans.now (length self.new.formula) }
    {
        if !all_known(clause, self.variables) {
            return Err(Unfit::Literal);
        }
        let begin = self.used as usize;
        let room = (self.words.len() - begin).min(0xffff_ffff - begin);
        if clause.len() > room {
            return Err(Unfit::Room);
        }
        if self.count >= self.spans.len() / 2 {
            return Err(Unfit::Room);
        }
        let end = begin + clause.len();
        self.words[begin..end].copy_from_slice(clause);
        self.spans[2 * self.count] = begin as u32;
        self.spans[2 * self.count + 1] = end as u32;
        self.count += 1;
        self.used = end as u32;
        Ok(())
    }

    // Keeps the clauses that are wanted, in their order, and moves them together. Where they are in order,
    // each is asked about once, in turn, with its number. One that begins before the end of what has been
    // moved, as only others can, is not asked about and not kept.
    pub fn retain<F: FnMut(usize, &[u32]) -> bool>(&mut self, mut wants: F)
        requires { F.IsAlwaysCallable wants }
        ensures wanted { InOrder self.old.spans.now (length self.old.formula) → Retains F.FnMut wants self.old.formula self.new.formula }
        ensures in_order { InOrder self.new.spans.now (length self.new.formula) }
        ensures some { SomeOf self.old.formula self.new.formula }
        ensures fewer { length self.new.formula ≤ length self.old.formula }
        ensures memory { SameMemory self.old self.new }
        ensures together { self.new.used ≡ sum_by length self.new.formula }
        ensures used { self.new.used ≤ self.old.used }
    {
        let spans = &mut *self.spans;
        let words = &mut *self.words;
        let taken = self.taken;
        let mut kept = 0;
        let mut written = 0;
        // by number, since the spans change as they are gone through
        for number in 0..self.count {
            let from = spans[2 * number] as usize;
            let to = spans[2 * number + 1] as usize;
            // its literals may be overwritten
            if taken && from < written {
                continue;
            }
            prove!(written <= from);
            prove!(from <= to);
            prove!(to <= words.len());
            if wants(number, &words[from..to]) {
                let end = written + (to - from);
                words.copy_within(from..to, written);
                spans[2 * kept] = written as u32;
                spans[2 * kept + 1] = end as u32;
                kept += 1;
                written = end;
            }
        }
        self.count = kept;
        self.used = written as u32;
    }
}

#[cfg(test)]
mod tests {
    use super::Store;
    use std::test::*;

    // What began empty is not taken for what was taken over; no contract says so.
    #[test]
    fn begins_in_order(rt: HostRuntime) {
        let mut spans = [9; 2];
        let mut words = [9; 2];
        let store = Store::new(5, &mut spans, &mut words);
        assert!(rt; !store.taken);
    }

    // The second clause stands before the first, which is moved over it; so it is not kept, though wanted.
    #[test]
    fn overwritten_is_not_kept(rt: HostRuntime) {
        let mut spans = [2, 4, 0, 2];
        let mut words = [4, 6, 0, 2];
        let mut store = Store::over(4, &mut spans, &mut words, 2, 4);
        store.retain(|_, _| true);
        assert_eq!(rt; store.len(), 1);
        assert_eq!(rt; store.clauses().clause(0), &[0, 2][..]);
    }
}
