//! Read sections: the section word of caller c is at 8 + c.

use crate::asserts::{Machine, assert_performs};
use rht_grace::{Enter, Leave};
use rht_words::{Next, Op};
use std::test::Fail;

impl Machine for Enter {
    type Answer = ();

    fn plan(&self) -> Op {
        self.plan()
    }

    fn take(&mut self, old: u64) -> Next<()> {
        self.take(old)
    }
}

impl Machine for Leave {
    type Answer = ();

    fn plan(&self) -> Op {
        self.plan()
    }

    fn take(&mut self, old: u64) -> Next<()> {
        self.take(old)
    }
}

#[test]
fn each_adds_one_to_its_own_callers_word(rt: HostRuntime) -> Result<(), Fail> {
    // the first caller and the last one, in their first sections and where the word begins again
    let cases: [(u32, usize, u64); 3] = [(0, 8, 0), (15, 23, 4), (15, 23, u64::MAX - 1)];
    for (caller, place, old) in cases {
        let enter = [(Op::add(place, 1), old)];
        assert_performs(&rt, Enter::new(caller), &enter, ());
        let leave = [(Op::add(place, 1), old + 1)];
        assert_performs(&rt, Leave::new(caller), &leave, ());
    }
    Ok(())
}
