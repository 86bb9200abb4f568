// Enum `Rule`: the nine rules by which a user access or a kernel copy (xv6's copyin, copyout) is denied, with their numbers,
// 1 to 9, and their names.

ghost use Rattle.std.specs.Prelude.{◌≡◌};
ghost use Rattle.sv39_entry.specs.RuleText as words;

/// Why a user access or a kernel copy is denied, in the order in which the rules are tried. The order, the numbers and the
/// names are the project's own.
#[derive(Clone, Copy, PartialEq, Eq, Debug)]
pub enum Rule {
    /// The address is not a multiple of the access width. Kernel copies are not tested for this.
    Misaligned,
    /// The address is at or above MAXVA (`Scheme::maxva`).
    BeyondMax,
    /// The page is the trampoline's or the trapframe's.
    KernelPage,
    /// The page is the guard below the stack.
    GuardPage,
    /// No region holds the page.
    NoRegion,
    /// A load, and the region does not grant reading.
    NoRead,
    /// A store, and the region does not grant writing.
    NoWrite,
    /// A fetch, and the region does not grant execution.
    NoExec,
    /// The access is granted, but it needs frames and too few were free.
    NoFrame,
}

impl Rule {
    /// Returns the number of the rule, 1 to 9, in the order in which the rules are tried.
    pub fn number(self) -> u64
        ensures { result ≡ words.rule_number self }
    {
        match self {
            Rule::Misaligned => 1,
            Rule::BeyondMax => 2,
            Rule::KernelPage => 3,
            Rule::GuardPage => 4,
            Rule::NoRegion => 5,
            Rule::NoRead => 6,
            Rule::NoWrite => 7,
            Rule::NoExec => 8,
            Rule::NoFrame => 9,
        }
    }

    /// Returns the name of the rule, as replies print it.
    pub fn name(self) -> &'static str
        ensures { result.now ≡ words.rule_name self }
    {
        match self {
            Rule::Misaligned => "Misaligned",
            Rule::BeyondMax => "BeyondMax",
            Rule::KernelPage => "KernelPage",
            Rule::GuardPage => "GuardPage",
            Rule::NoRegion => "NoRegion",
            Rule::NoRead => "NoRead",
            Rule::NoWrite => "NoWrite",
            Rule::NoExec => "NoExec",
            Rule::NoFrame => "NoFrame",
        }
    }
}
