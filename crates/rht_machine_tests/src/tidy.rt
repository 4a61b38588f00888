//! Tidying. In a table of 8 nodes and 2 callers the section words are at 8 and 9, and the node map is
//! the word at 280: node n has the bit with the value 2^n there.

use crate::asserts::{Machine, said_behind};
use rht_grace::{Batch, Tidy};
use rht_model::Reply;
use rht_words::{Geometry, Next, Op};
use std::process::Abort;
use std::test::Fail;

impl Machine for Tidy {
    type Answer = Reply;

    fn plan(&self) -> Op {
        self.plan()
    }

    fn take(&mut self, old: u64) -> Next<Reply> {
        self.take(old)
    }
}

const OTHER_READS: Reply = Reply::Pending {
    caller: 1,
    section: 5,
};

/// A load of a caller's section word, and what it finds.
fn section(caller: u32, word: u64) -> (Op, u64) {
    (Op::load(8 + caller as usize), word)
}

/// Gives back the node whose bit has this value. What the word was before isn't looked at.
fn gives(bit: u64) -> (Op, u64) {
    (Op::or(280, bit), 0)
}

/// A batch with these fresh nodes.
fn with_fresh(rt: &impl Abort, batch: Batch, nodes: &[u32]) -> Batch {
    let mut batch = batch;
    for node in nodes {
        let may_be_put = *node < batch.geometry().nodes && batch.lacks(*node);
        assert!(rt; may_be_put, "{node} is in no list");
        batch.put(*node);
    }
    batch
}

/// Asserts that a tidying performs these operations and answers so behind the last one, and not
/// before. It gives the batch that is left.
fn tidied(rt: &impl Abort, batch: Batch, steps: &[(Op, u64)], answer: Reply) -> Batch {
    let geometry = batch.geometry();
    let mut tidy = Tidy::new(geometry, batch);
    let next = said_behind(rt, &mut tidy, Next::Go, steps, answer);
    assert!(rt;
        next == Next::Done(answer),
        "{answer:?} is behind the last one"
    );
    tidy.into_parts()
}

/// Asserts that these nodes are fresh, and that these wait.
fn assert_left(rt: &impl Abort, batch: &Batch, fresh: &[u32], waiting: &[u32]) {
    assert!(rt; batch.fresh() == fresh, "the fresh nodes");
    assert!(rt; batch.waiting() == waiting, "the waiting nodes");
}

/// A table of 8 nodes and 2 callers.
fn geometry(rt: &impl Abort) -> Geometry {
    let Some(geometry) = Geometry::new(8, 4, 2) else {
        panic!(rt; "the numbers are within their limits");
    };
    geometry
}

#[test]
fn nodes_return_where_nobody_reads(rt: HostRuntime) -> Result<(), Fail> {
    let batch = Batch::new(rt.alloc(), geometry(&rt))?;
    let batch = with_fresh(&rt, batch, &[3, 0]);
    assert_left(&rt, &batch, &[3, 0], &[]);
    let steps = [section(0, 4), section(1, 0), gives(8), gives(1)];
    let batch = tidied(&rt, batch, &steps, Reply::Clear { returned: 2 });
    assert_left(&rt, &batch, &[], &[]);
    // they may be put in anew, once they were taken again
    with_fresh(&rt, batch, &[0, 3]);
    Ok(())
}

#[test]
fn nodes_wait_for_a_reader_that_has_left(rt: HostRuntime) -> Result<(), Fail> {
    let batch = Batch::new(rt.alloc(), geometry(&rt))?;
    let batch = with_fresh(&rt, batch, &[7]);
    // the second caller is in a section when the node begins to wait, and still when it is asked
    let steps = [section(0, 4), section(1, 5), section(1, 5)];
    let batch = tidied(&rt, batch, &steps, OTHER_READS);
    assert_left(&rt, &batch, &[], &[7]);
    // and at the next call, which keeps no words anew
    let batch = tidied(&rt, batch, &[section(1, 5)], OTHER_READS);
    // then it has left
    let steps = [section(1, 6), gives(128)];
    let batch = tidied(&rt, batch, &steps, Reply::Clear { returned: 1 });
    assert_left(&rt, &batch, &[], &[]);
    Ok(())
}

#[test]
fn a_reader_that_came_again_isnt_waited_for(rt: HostRuntime) -> Result<(), Fail> {
    let batch = Batch::new(rt.alloc(), geometry(&rt))?;
    let batch = with_fresh(&rt, batch, &[2]);
    // Both read when the node begins to wait. The first has left and come again when it is asked: its
    // word is odd, and another one. The second one is where it was.
    let steps = [section(0, 1), section(1, 5), section(0, 3), section(1, 5)];
    let batch = tidied(&rt, batch, &steps, OTHER_READS);
    // so the first isn't asked again
    let steps = [section(1, 7), gives(4)];
    let batch = tidied(&rt, batch, &steps, Reply::Clear { returned: 1 });
    assert_left(&rt, &batch, &[], &[]);
    Ok(())
}

#[test]
fn fresh_nodes_wait_for_their_own_turn(rt: HostRuntime) -> Result<(), Fail> {
    let batch = Batch::new(rt.alloc(), geometry(&rt))?;
    let batch = with_fresh(&rt, batch, &[1, 4]);
    let steps = [section(0, 0), section(1, 5), section(1, 5)];
    let batch = tidied(&rt, batch, &steps, OTHER_READS);
    // two more come while the first two wait, which return alone
    let batch = with_fresh(&rt, batch, &[6, 5]);
    assert_left(&rt, &batch, &[6, 5], &[1, 4]);
    let steps = [section(1, 8), gives(2), gives(16)];
    let batch = tidied(&rt, batch, &steps, Reply::Clear { returned: 2 });
    assert_left(&rt, &batch, &[6, 5], &[]);
    // the later ones wait for the sections that are open now
    let steps = [
        section(0, 9),
        section(1, 8),
        section(0, 10),
        gives(64),
        gives(32),
    ];
    let batch = tidied(&rt, batch, &steps, Reply::Clear { returned: 2 });
    assert_left(&rt, &batch, &[], &[]);
    Ok(())
}

#[test]
fn empty_lists_are_tidied_too(rt: HostRuntime) -> Result<(), Fail> {
    let batch = Batch::new(rt.alloc(), geometry(&rt))?;
    // each section word is loaded all the same, and a reader is waited for
    let steps = [section(0, 2), section(1, 5), section(1, 5)];
    let batch = tidied(&rt, batch, &steps, OTHER_READS);
    // since no node waits, the words are kept anew
    let steps = [section(0, 2), section(1, 5), section(1, 6)];
    let batch = tidied(&rt, batch, &steps, Reply::Clear { returned: 0 });
    assert_left(&rt, &batch, &[], &[]);
    Ok(())
}
