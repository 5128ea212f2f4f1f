//! Room on the machine's stack, which a program takes when it starts.
#![tactic(auto)]

ghost use Rattle.std.specs.Prelude.{◌≤◌};

use std::alloc::{AllocError, Global};
use std::fs;

/// How many bytes of the stack one call takes at least: a page of memory.
const PAGE: usize = 4096;

/// How many calls there are at most, each below the one before. Together they take some 1,700 KiB.
const CALLS: usize = 410;

/// How many bytes of the stack are left for what a program has before it takes room: its words, its environment and its first
/// calls.
const LEFT: u64 = 192 * 1024;

/// How many bytes the stack is taken to have where the system does not tell.
const USUAL_LEAST: u64 = 1024 * 1024;

/// How many bytes a block has by which memory is asked for. The allocator gives blocks of this size back to the system.
const BLOCK: usize = 65_536;

/// How many calls have less on the stack than a block has.
const CALLS_OF_BLOCK: usize = 14;

/// Takes room on the machine's stack, so that calls which need no more find it there: some 1,700 KiB, or what the system's limit
/// of the stack allows. Where the system does not tell its limit, that is taken to be 1 MiB. A system that has no memory for the
/// room is asked before, by the allocator. So running out of memory is an error here, and not the end of the process later. The
/// memory is given back, but the stack keeps its size.
///
/// The number is one that is not known before the program runs, such as how many words it has. It changes nothing, and keeps a
/// compiler from leaving out what has no result.
pub fn take_stack(rt: &HostRuntime, number: usize) -> Result<(), AllocError> {
    let calls = calls_within(stack_limit(rt));
    ask_memory(rt.alloc(), 1 + calls / CALLS_OF_BLOCK)?;
    if touch_pages(calls, number) > 1 {
        return Err(AllocError);
    }
    Ok(())
}

/// How many bytes the stack may have, as the system lists the limits of a process.
fn stack_limit(rt: &HostRuntime) -> u64 {
    match fs::read_to_string(rt, "/proc/self/limits") {
        Ok(limits) => limit_listed(limits.as_str()).unwrap_or(USUAL_LEAST),
        Err(_) => USUAL_LEAST,
    }
}

/// The present limit of the stack in a list of limits, a line for each; none where it is not listed. A limit that is not a
/// number is no limit.
fn limit_listed(limits: &str) -> Option<u64> {
    for line in limits.lines() {
        if let Some(columns) = line.strip_prefix("Max stack size") {
            let limit = columns.split_whitespace().next()?;
            return Some(limit.parse().unwrap_or(u64::MAX));
        }
    }
    None
}

/// How many calls a stack of so many bytes has room for, each of a page and a little more, and as many as are ever made at most.
fn calls_within(bytes: u64) -> usize
    ensures { result ≤ 410 }
{
    let calls = bytes.saturating_sub(LEFT) / 4_300;
    match usize::try_from(calls) {
        Ok(calls) => calls.min(CALLS),
        Err(_) => CALLS,
    }
}

/// Asks the allocator for so many blocks, and gives them back. The list of them is before them in memory, so none of it is in
/// the way where they go back to the system.
fn ask_memory(alloc: Global, count: usize) -> Result<(), AllocError> {
    let mut blocks = Vec::with_capacity(alloc, count)?;
    for _ in 0..count {
        let block: Vec<u8> = Vec::with_capacity(alloc, BLOCK)?;
        blocks.push(block)?;
    }
    Ok(())
}

/// Writes to a page of the stack in each of so many calls, and answers a byte of the first, which is 0 or 1.
#[inline(never)]
fn touch_pages(calls: usize, number: usize) -> u8 {
    let mut page = [0u8; PAGE];
    page[number % PAGE] = 1;
    if calls == 0 {
        return page[number / 2 % PAGE];
    }
    let below = touch_pages(calls - 1, number.wrapping_add(1));
    page[usize::from(below)]
}

#[cfg(test)]
mod tests {
    use super::limit_listed;
    use std::test::Fail;

    #[test]
    fn reads_the_limit_of_the_stack(rt: HostRuntime) -> Result<(), Fail> {
        let limits =
            "Limit Soft Limit\nMax data size        unlimited unlimited bytes\nMax stack size       8388608   unlimited bytes\n";
        assert_eq!(rt; limit_listed(limits), Some(8_388_608));
        assert_eq!(rt;
            limit_listed("Max stack size  unlimited  unlimited  bytes"),
            Some(u64::MAX)
        );
        assert_eq!(rt; limit_listed("Max data size  1  1  bytes"), None);
        assert_eq!(rt; limit_listed("Max stack size"), None);
        Ok(())
    }
}
