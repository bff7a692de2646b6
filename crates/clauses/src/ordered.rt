// A store that is known to be in order, whatever function it is lent to.
ghost use Rattle.std.specs.Prelude.{◌≡◌, ◌≤◌, [], length, sum_by};
ghost use Rattle.clauses.specs.Stores.{InOrder, AddedIf, SameMemory};
ghost use Rattle.clauses.specs.Retaining.{SomeOf, Retains};

use super::store::{Store, Unfit};
use std::marker::Model;

// Each clause ends before the later ones begin, so exactly those that are wanted can be kept.
#[derive(Drop)]
pub struct OrderedStore<'a> {
    store: Store<'a>,
}

impl<'a> Model for OrderedStore<'a> {
    ghost use Rattle.clauses.specs.Views.{StoreView};

    ghost Value = { StoreView };

    ghost use Rattle.clauses.specs.Ordering.{ordered_view, IsOrdered};

    ghost view = { ordered_view };

    ghost invariant = { IsOrdered };
}

impl<'a> OrderedStore<'a> {
    // No clauses yet.
    pub fn new(variables: usize, spans: &'a mut [u32], words: &'a mut [u32]) -> OrderedStore<'a>
        ensures variables { result.variables ≡ variables }
        ensures formula { result.formula ≡ [] }
        ensures used { result.used ≡ 0 }
        ensures spans { result.spans ≡ spans.entry }
        ensures words { result.words ≡ words.entry }
    {
        OrderedStore::of(Store::new(variables, spans, words))
    }

    // A store whose clauses are known to be in order.
    pub fn of(store: Store<'a>) -> OrderedStore<'a>
        requires { InOrder store.spans.now (length store.formula) }
        ensures { result ≡ store.entry }
    {
        OrderedStore { store }
    }

    // The store, for a trail, a search or a circuit to write into.
    pub fn into_store(self) -> Store<'a>
        ensures is { result ≡ self.entry }
        ensures in_order { InOrder result.spans.now (length result.formula) }
    {
        self.store
    }

    // The store, to be read.
    pub fn store(&self) -> &Store<'a>
        ensures is { result.now ≡ self.now }
        ensures in_order { InOrder self.now.spans.now (length self.now.formula) }
    {
        &self.store
    }
}

impl OrderedStore<'_> {
    // Adds a clause, or refuses it and changes nothing.
    pub fn add(&mut self, clause: &[u32]) -> Result<(), Unfit>
        ensures { AddedIf clause.now self.old self.new result }
    {
        self.store.add(clause)
    }

    // Keeps the clauses that are wanted, in their order, and moves them together. Each is asked about once,
    // in order, with its number.
    pub fn retain<F: FnMut(usize, &[u32]) -> bool>(&mut self, wants: F)
        requires { F.IsAlwaysCallable wants }
        ensures wanted { Retains F.FnMut wants self.old.formula self.new.formula }
        ensures some { SomeOf self.old.formula self.new.formula }
        ensures fewer { length self.new.formula ≤ length self.old.formula }
        ensures memory { SameMemory self.old self.new }
        ensures together { self.new.used ≡ sum_by length self.new.formula }
        ensures used { self.new.used ≤ self.old.used }
    {
        self.store.retain(wants)
    }
}

#[cfg(test)]
mod tests {
    use super::OrderedStore;
    use std::test::*;

    // Of four clauses, one of them empty, those of two literals are kept, each asked about with its number;
    // then the second of those.
    #[test]
    fn kept_in_order(rt: HostRuntime) -> Result<(), Fail> {
        let mut spans = [9; 8];
        let mut words = [9; 8];
        let mut store = OrderedStore::new(4, &mut spans, &mut words);
        let clauses: [&[u32]; 4] = [&[0, 2], &[4], &[], &[5, 7]];
        for clause in clauses {
            store.add(clause).map_err(|_| "no room")?;
        }
        let mut asked = [9; 4];
        let mut next = 0;
        store.retain(|number, clause| {
            if next < asked.len() {
                asked[next] = number;
            }
            next = next.saturating_add(1);
            clause.len() == 2
        });
        assert_eq!(rt; asked, [0, 1, 2, 3]);
        let kept = store.store().clauses();
        assert_eq!(rt; kept.len(), 2);
        assert_eq!(rt; kept.clause(0), &[0, 2][..]);
        assert_eq!(rt; kept.clause(1), &[5, 7][..]);
        let mut store = OrderedStore::of(store.into_store());
        store.retain(|number, _| number == 1);
        let kept = store.store().clauses();
        assert_eq!(rt; kept.len(), 1);
        assert_eq!(rt; kept.clause(0), &[5, 7][..]);
        Ok(())
    }
}
