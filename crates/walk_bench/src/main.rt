//! A benchmark: measures how many page table walks a second `translate` of `table_walk` makes, under Sv39 and under Sv48,
//! and compares that with a walk of Sv39 in plain code. All three find the same pages.
//! Prints the sums of the physical addresses found, which must be equal, on standard output; and the rates, in walks a
//! second and in percent of the plain one, on standard error.
#![tactic(auto)]

mod plain;
mod tables;

use crate::plain::plain_walk;
use crate::tables::{PAGES, ROOT, TALL_ROOT, addresses, root_scheme, words};
use std::io;
use std::time::{Duration, Instant};
use sv39_entry::{Access, FrameNo, Mode, Scheme, Va};
use table_walk::{PlainWords, Walk, translate};

/// The number of rounds; each walks once to every page.
const ROUNDS: usize = 10_000;

/// Walks to all addresses with `translate`, as user loads; returns the sum of the physical addresses found, modulo 2^64.
fn proved_round(scheme: Scheme, words: &[u64], root: u16, addresses: &[u64]) -> u64 {
    let mut memory = PlainWords::new(words);
    let mut sum = 0u64;
    for address in addresses {
        if let Walk::Leaf { address, .. } = translate(
            &mut memory,
            scheme,
            FrameNo(root).ppn(),
            Va(*address),
            Access::Load,
            Mode::User,
        ) {
            sum = sum.wrapping_add(address);
        }
    }
    sum
}

/// Makes all rounds with `translate`, by the tables below a root; returns the sum of the physical
/// addresses found, modulo 2^64.
fn proved_rounds(words: &[u64], root: u16, addresses: &[u64]) -> u64 {
    let scheme = root_scheme(words, root);
    let mut sum = 0u64;
    for _ in 0..ROUNDS {
        sum = sum.wrapping_add(proved_round(scheme, words, root, addresses));
    }
    sum
}

/// Makes all rounds with the plain walk, by the Sv39 tables; returns the sum of the physical addresses found, modulo 2^64.
fn plain_rounds(words: &[u64], addresses: &[u64]) -> u64 {
    let mut sum = 0u64;
    for _ in 0..ROUNDS {
        for address in addresses {
            if let Some(address) = plain_walk(words, FrameNo(ROOT).ppn(), *address) {
                sum = sum.wrapping_add(address);
            }
        }
    }
    sum
}

/// Returns how many walks a second were made, if all rounds took this time; rounded down.
fn rate(time: Duration) -> u64 {
    let nanos = time.as_nanos().max(1);
    ((ROUNDS * PAGES) as u128 * 1_000_000_000 / nanos) as u64
}

/// Returns `rate` in percent of the rate `plain`, rounded down.
fn percent(rate: u64, plain: u64) -> u128 {
    rate as u128 * 100 / plain.max(1) as u128
}

fn main(rt: HostRuntime) -> io::Result<()> {
    let words = words(rt.alloc())?;
    let addresses = addresses(rt.alloc())?;
    let start = Instant::now(&rt)?;
    let three = proved_rounds(&words, ROOT, &addresses);
    let first = Instant::now(&rt)?;
    let four = proved_rounds(&words, TALL_ROOT, &addresses);
    let second = Instant::now(&rt)?;
    let plain = plain_rounds(&words, &addresses);
    let end = Instant::now(&rt)?;
    println!(rt; "proved sum, three levels {three:x}")?;
    println!(rt; "proved sum, four levels {four:x}")?;
    println!(rt; "plain sum, three levels {plain:x}")?;
    let three = rate(first.duration_since(start));
    let four = rate(second.duration_since(first));
    let plain = rate(end.duration_since(second));
    let (of_three, of_four) = (percent(three, plain), percent(four, plain));
    eprintln!(rt; "proved, three levels: {three} walks a second, {of_three} for 100 plain ones")?;
    eprintln!(rt; "proved, four levels: {four} walks a second, {of_four} for 100 plain ones")?;
    eprintln!(rt; "plain, three levels: {plain} walks a second")?;
    Ok(())
}
