//! Shows what facts know of symbolic words.
//!
//! Each line of standard input is a case. It has three parts, with bars between them: nodes that are pushed to a pool,
//! steps that its facts take, and what is shown. For example, `const 255; and 0 16 | 17 > 16 false | 17` pushes the
//! number 255 at place 16 and its AND with word 0 at place 17, learns that the AND isn't above 255, and shows the AND.
//! A line that begins with `#` says what the next ones are about.
//!
//! Where the third part is a place, the steps are taken up to one that contradicts, and what is known of the node there
//! is written behind the line.
//!
//! Where it is `all`, all steps are taken, also those after one that contradicts. Behind the line come
//!
//! - `at first`: what is known before the first step;
//! - for each step `taken`, `nothing new` or `contradicts`;
//! - `in the end`: once a constant is pushed for each number that is the only one of some node.
//!
//! Below the first of these, and below each step, stand the nodes of which something else is known than before: the
//! interval, the known bits, the number where there is only one, and the least number of a word. (Before it is there
//! nothing is known of a node.) Below a step that brought something new, and in the end, `1 != 17` stands where word 1
//! is known not to be the number of node 17: to learn this changes nothing. It is tried with each node that has only
//! one number and from which no known bits go back, and with the first four words; in the end with all words.
//!
//! `tools/test facts_agree` compares such lines with the rules.
#![tactic(auto)]

mod cases;
mod following;
mod looking;

use crate::cases::{Shown, case_of};
use crate::following::follow;
use crate::looking::look;
use std::test::Fail;

/// Shows what one case leaves.
fn show<R: Print + AllocGlobal>(rt: &R, line: &str) -> Result<(), Fail> {
    let Some(case) = case_of(rt.alloc(), line)? else {
        println!(rt; "{line}: no case")?;
        return Ok(());
    };
    match case.shown {
        Shown::Node(at) => println!(rt; "{line}: {}", look(rt.alloc(), &case, at)?)?,
        Shown::All => print!(rt; "{line}\n{}", follow(rt.alloc(), &case)?)?,
    }
    Ok(())
}

fn main(rt: HostRuntime) -> Result<(), Fail> {
    for line in rt.lines(rt.alloc()) {
        let line = line?;
        if !line.is_empty() && !line.starts_with('#') {
            show(&rt, line.as_str())?;
        }
    }
    Ok(())
}
