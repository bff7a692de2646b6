// Who watches which literal. A clause has two nodes, and a literal the chain of the nodes that watch
// it: heads has a chain's first node for each literal, links for each clause the two nodes' next ones
// and then the two literals watched. A node is its number plus one, and 0 ends a chain. All stands in
// words that are lent; one for which there is no room is left away.
ghost use Rattle.std.specs.Prelude.{◌≡◌, ℕ, ◌<◌, slice_index, slice_set};
ghost use Rattle.propagation.specs.Watching.{ChainedFirst, Attached};

#[derive(Drop)]
pub struct Watches<'a> {
    pub heads: &'a mut [u32],
    pub links: &'a mut [u32],
}

// Writes a word, if there is that place.
fn set(words: &mut [u32], at: usize, word: u32)
    ensures { words.new ≡ slice_set words.old at word }
{
    if at < words.len() {
        words[at] = word;
    }
}

impl Watches<'_> {
    // The first node of a literal's chain.
    pub(crate) fn head(&self, literal: u32) -> u32
        ensures { result ≡ slice_index self.now.heads.now literal }
    {
        self.heads.get(literal as usize).copied().unwrap_or(0)
    }

    pub(crate) fn link(&self, at: usize) -> u32
        ensures { result ≡ slice_index self.now.links.now at }
    {
        self.links.get(at).copied().unwrap_or(0)
    }

    // Puts a node first into the chain of a literal.
    fn watch(&mut self, at: usize, literal: u32, node: u32)
        ensures { ChainedFirst self.old self.new at literal node }
    {
        let rest = self.head(literal);
        set(self.links, at, rest);
        set(self.heads, literal as usize, node);
    }

    // Takes a node out of the chain of one literal, behind the link at back or first where there is
    // none, and puts it into the chain of another.
    pub(crate) fn shift(
        &mut self,
        back: Option<usize>,
        literal: u32,
        at: usize,
        other: u32,
        node: u32,
        next: u32,
    )
        requires { at < 17179869184 }
    {
        match back {
            None => set(self.heads, literal as usize, next),
            Some(link) => set(self.links, link, next),
        }
        set(self.links, at + 2, other);
        self.watch(at, other, node);
    }

    // More nodes than there are: no chain is longer.
    pub(crate) fn nodes(&self) -> usize {
        self.links.len()
    }

    // Has no clause watched any more.
    pub fn detach_all(&mut self)
        ensures heads { (l : ℕ) → slice_index self.new.heads.now l ≡ 0 }
        ensures links { self.new.links.now ≡ self.old.links.now }
    {
        self.heads.fill(0);
    }

    // Has a clause watched by two of its literals.
    pub fn attach(&mut self, clause: u32, one: u32, other: u32)
        ensures { Attached self.old self.new clause one other }
    {
        let at = 4 * clause as usize;
        let node = clause.saturating_mul(2);
        set(self.links, at + 2, one);
        set(self.links, at + 3, other);
        self.watch(at, one, node.saturating_add(1));
        self.watch(at + 1, other, node.saturating_add(2));
    }
}
