// `put_denial`: why a rule denies an access or a copy, in words.

use crate::access_names::access_name;
use crate::regions::RegionLine;
use address_space::Region;
use sv39_entry::{Access, Rule, Scheme, Va};
use text_builder::Text;
use walk_lines::Hex;

/// An access or a copy that a rule denies.
#[derive(Clone, Copy)]
pub struct Denied {
    pub access: Access,
    pub va: Va,
    /// In bytes; 1 for a copy.
    pub width: u64,
    /// The region that holds the address.
    pub region: Option<Region>,
    pub scheme: Scheme,
}

/// Returns the rule with this number, 1 to 8; `NoFrame` for any other.
pub fn rule_of(number: u64) -> Rule {
    match number {
        1 => Rule::Misaligned,
        2 => Rule::BeyondMax,
        3 => Rule::KernelPage,
        4 => Rule::GuardPage,
        5 => Rule::NoRegion,
        6 => Rule::NoRead,
        7 => Rule::NoWrite,
        8 => Rule::NoExec,
        _ => Rule::NoFrame,
    }
}

/// Returns what the region of an access does not grant.
fn right_name(access: Access) -> &'static str {
    match access {
        Access::Fetch => "execution",
        Access::Load => "reading",
        Access::Store => "writing",
    }
}

/// Tells that the region of an access does not grant it.
fn put_no_right(text: &mut Text, denied: &Denied) {
    let right = right_name(denied.access);
    match denied.region {
        Some(region) => {
            let region = RegionLine::of(region);
            write!(text, "in {region}, which does not grant {right}")
        }
        None => write!(text, "whose region does not grant {right}"),
    }
}

/// Tells that an access is in the guard page.
fn put_guard(text: &mut Text, region: Option<Region>) {
    match region {
        Some(region) => {
            let region = RegionLine::of(region);
            write!(
                text,
                "in {region}, the page that catches an overflow of the stack"
            )
        }
        None => text.push_str("in the guard page below the stack"),
    }
}

/// Tells why a rule denies an access.
pub fn put_denial(text: &mut Text, rule: Rule, denied: &Denied) {
    let (word, at, width) = (access_name(denied.access), Hex(denied.va.0), denied.width);
    if rule == Rule::Misaligned {
        write!(
            text,
            "{word} of {width} bytes at {at}, which is no multiple of {width}"
        );
        return;
    }
    write!(text, "{word} at {at}, ");
    match rule {
        Rule::BeyondMax => {
            let max = Hex(denied.scheme.maxva().0);
            write!(text, "and addresses must be below {max} (MAXVA)")
        }
        Rule::KernelPage => text.push_str(
            "in the page of the trampoline or of the trapframe, which are the kernel's",
        ),
        Rule::GuardPage => put_guard(text, denied.region),
        Rule::NoRegion => text.push_str("which no region of the process holds"),
        Rule::NoFrame => text.push_str("which is granted, but too few frames are free"),
        _ => put_no_right(text, denied),
    }
}
