//! Suspects of a kind that the caller brings.

use crate::runs::{printed, run, texts_with};
use crate::same::same;
use std::test::Fail;

/// Words, and what is printed.
const RUNS: [(&str, &str); 2] = [
    (
        "find g.v m t.vcd --suspects all",
        "set {1}\n  1 all 3 all\ncomplete 1\n",
    ),
    (
        "find g.v m t.vcd --suspects all,stmt,gate,instance,block",
        "set {1}\n  1 all 3 all\nset {2}\n  2 gate 3 m.g1\nset {3}\n  3 gate 4 m.g2\ncomplete 3\n",
    ),
];

#[test]
fn a_kind_of_the_caller_s_own_is_listed(rt: HostRuntime) -> Result<(), Fail> {
    let alloc = rt.alloc();
    for (line, wanted) in &RUNS {
        let ran = run(&rt, alloc, texts_with(alloc, None)?, *line)?;
        same(&rt, line, &printed(&ran), &wanted.as_bytes());
        same(&rt, line, &ran.status, &0);
    }
    Ok(())
}
