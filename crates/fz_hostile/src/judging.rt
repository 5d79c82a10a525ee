//! Calls that fill and judge the blocks of a stream against a model.

use crate::loading::tell_points;
use crate::outside::{file, tell, tell_error};
use fz_check::{BlockError, Completion, Judge, fill, fill_with_steps};
use fz_model::{Model, load};
use fz_stream::{Block, blocks};
use fz_syntax::{Ast, parse};

/// Makes a call on the model of the first text and on each block of the second.
pub fn make_call(rt: &HostRuntime, call: &str, operands: &[String]) -> Option<()> {
    let source = file(rt, operands, 0)?;
    let stream = file(rt, operands, 1)?;
    match parse(rt.alloc(), &source) {
        Ok(tree) => call_on_tree(rt, call, &tree, &stream),
        Err(_) => None,
    }
}

fn call_on_tree(rt: &HostRuntime, call: &str, tree: &Ast<'_>, stream: &[u8]) -> Option<()> {
    match load(rt.alloc(), tree) {
        Ok(model) => call_on_model(rt, call, &model, stream),
        Err(_) => None,
    }
}

fn call_on_model(rt: &HostRuntime, call: &str, model: &Model<'_>, stream: &[u8]) -> Option<()> {
    match blocks(rt.alloc(), stream) {
        Ok(found) => call_on_blocks(rt, call, model, &found.blocks),
        Err(_) => None,
    }
}

fn call_on_blocks(
    rt: &HostRuntime,
    call: &str,
    model: &Model<'_>,
    given: &[Block<'_>],
) -> Option<()> {
    match call {
        "judge" => tell_verdicts(rt, model, given),
        _ => tell_fillings(rt, call, model, given),
    }
}

/// Fills a block, and prints its values, or the points under them, or the refusal. Whether memory
/// ran out.
fn fill_lacks_memory(rt: &HostRuntime, call: &str, model: &Model<'_>, block: &Block<'_>) -> bool {
    match fill(rt.alloc(), model, block) {
        Ok(partial) => {
            if call == "fill" {
                tell(rt, &partial.values());
            } else {
                tell_points(rt, model, &partial);
            }
            false
        }
        Err(error) => is_memory(rt, error),
    }
}

fn is_memory(rt: &HostRuntime, error: BlockError) -> bool {
    tell_error(rt, &error);
    matches!(error, BlockError::Memory)
}

/// Fills a block, and prints its values and the steps that gave them, or the refusal. Whether
/// memory ran out.
fn steps_lack_memory(rt: &HostRuntime, model: &Model<'_>, block: &Block<'_>) -> bool {
    match fill_with_steps(rt.alloc(), model, Completion::Off, block) {
        Ok((partial, steps)) => {
            tell(rt, &partial.values());
            tell(rt, &steps);
            false
        }
        Err(error) => is_memory(rt, error),
    }
}

fn tell_filling(rt: &HostRuntime, call: &str, model: &Model<'_>, block: &Block<'_>) {
    for _ in 0..2 {
        let lacks_memory = match call {
            "fill_with_steps" => steps_lack_memory(rt, model, block),
            _ => fill_lacks_memory(rt, call, model, block),
        };
        if !lacks_memory {
            break;
        }
    }
}

fn tell_fillings(
    rt: &HostRuntime,
    call: &str,
    model: &Model<'_>,
    given: &[Block<'_>],
) -> Option<()> {
    for block in given {
        tell_filling(rt, call, model, block);
    }
    Some(())
}

/// Prints the verdict on a block. Where memory runs out, the same judge judges the block again.
fn tell_verdict(rt: &HostRuntime, judge: &mut Judge<'_, '_>, block: &Block<'_>) {
    for _ in 0..2 {
        let verdict = judge.judge(rt.alloc(), block);
        tell(rt, &verdict);
        if !matches!(verdict, Err(BlockError::Memory)) {
            break;
        }
    }
}

/// Prints the verdicts of one judge.
fn tell_verdicts(rt: &HostRuntime, model: &Model<'_>, given: &[Block<'_>]) -> Option<()> {
    let mut judge = Judge::new(model);
    for block in given {
        tell_verdict(rt, &mut judge, block);
    }
    Some(())
}
