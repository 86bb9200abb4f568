// `Subject`: what a quiz asks about.

/// What a quiz asks about.
#[derive(Clone, Copy)]
pub enum Subject {
    /// Copy-on-write forks.
    Cow,
    /// A heap whose pages get frames when they are touched.
    Lazy,
    /// Mappings of files.
    Mmap,
    /// Kept and stale TLB entries, fences and ASIDs.
    Tlb,
    /// Walks of page tables.
    Walk,
}

impl Subject {
    /// Returns the subject of this name.
    pub fn of_name(name: &str) -> Option<Subject> {
        match name {
            "cow" => Some(Subject::Cow),
            "lazy" => Some(Subject::Lazy),
            "mmap" => Some(Subject::Mmap),
            "tlb" => Some(Subject::Tlb),
            "walk" => Some(Subject::Walk),
            _ => None,
        }
    }

    /// Returns its name.
    pub fn name(self) -> &'static str {
        match self {
            Subject::Cow => "cow",
            Subject::Lazy => "lazy",
            Subject::Mmap => "mmap",
            Subject::Tlb => "tlb",
            Subject::Walk => "walk",
        }
    }

    /// Returns its place among the subjects, from 0.
    pub fn number(self) -> u64 {
        match self {
            Subject::Cow => 0,
            Subject::Lazy => 1,
            Subject::Mmap => 2,
            Subject::Tlb => 3,
            Subject::Walk => 4,
        }
    }
}
