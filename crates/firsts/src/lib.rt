// The first picture: that there is one, what may be left out on the way to it, and how it is reached. Nothing runs.
#![tactic(auto)]

ghost use Rattle.firsts.specs.Orders.{OrderDecided, FirstThere};
ghost use Rattle.firsts.specs.Sieves.{SieveKeeps};
ghost use Rattle.firsts.specs.Leaders.{LeadersKeep};
ghost use Rattle.firsts.specs.Chains.{ChainSays, ChainShort};

// Theorem: the order of pictures is decided.
pub fn order_decided()
    ensures { OrderDecided }
{}

// Theorem: where some picture has a property, one is the first.
pub fn first_there()
    ensures { FirstThere }
{}

// Theorem: what leaves pictures out, and not the first, has the same first.
pub fn sieve_keeps()
    ensures { SieveKeeps }
{}

// Theorem: a picture that a transposition of things would bring forward may be left out, for one before it with things
// changed about is of the same description; and the first is never left out.
pub fn leaders_keep()
    ensures { LeadersKeep }
{}

// Theorem: a chain of clauses along the places whose bits change says that a picture leads.
pub fn chain_says()
    ensures { ChainSays }
{}

// Theorem: the chain has few links.
pub fn chain_short()
    ensures { ChainShort }
{}
