//! What the machines that change chains rely on. Each function is empty, and its clause is the law.

ghost use Rattle.rht_chain.specs.Laws.{LocksEvenWords, SeenAreFirst, WalksSeeTheirChain, WalksStayInChain, RelinksChains};

/// A lock is taken by an exchange from an even word alone.
pub fn locks_even_words()
    ensures { LocksEvenWords }
{}

/// What is to be seen of a chain is its first node with the key, and what is before it.
pub fn seen_are_first()
    ensures { SeenAreFirst }
{}

/// A walk sees the first node with its key, the node before it, and how many keys it has loaded.
pub fn walks_see_their_chain()
    ensures { WalksSeeTheirChain }
{}

/// A walk stays in its chain, also where others change other words than the links and keys of the
/// chain's nodes.
pub fn walks_stay_in_chain()
    ensures { WalksStayInChain }
{}

/// One store gives a locked bucket another chain.
pub fn relinks_chains()
    ensures { RelinksChains }
{}
