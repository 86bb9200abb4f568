// `Kind`: what a test asks of a kernel.

/// What a test asks of a kernel.
#[derive(Clone, Copy)]
pub enum Kind {
    /// Copy-on-write forks.
    Cow,
    /// A heap whose pages get frames when they are touched.
    Lazy,
    /// Mappings of files.
    Mmap,
    /// All three.
    Mixed,
}

impl Kind {
    /// Returns the kind of this name.
    pub fn of_name(name: &str) -> Option<Kind> {
        match name {
            "cow" => Some(Kind::Cow),
            "lazy" => Some(Kind::Lazy),
            "mmap" => Some(Kind::Mmap),
            "mixed" => Some(Kind::Mixed),
            _ => None,
        }
    }

    /// Returns its name.
    pub fn name(self) -> &'static str {
        match self {
            Kind::Cow => "cow",
            Kind::Lazy => "lazy",
            Kind::Mmap => "mmap",
            Kind::Mixed => "mixed",
        }
    }

    /// Returns its place among the kinds, from 0.
    pub fn number(self) -> usize {
        match self {
            Kind::Cow => 0,
            Kind::Lazy => 1,
            Kind::Mmap => 2,
            Kind::Mixed => 3,
        }
    }

    /// Returns whether it asks for a lazy heap.
    pub fn is_lazy(self) -> bool {
        matches!(self, Kind::Lazy | Kind::Mixed)
    }

    /// Returns whether it asks for copy-on-write.
    pub fn shares_copies(self) -> bool {
        matches!(self, Kind::Cow | Kind::Mixed)
    }

    /// Returns whether it asks for mappings.
    pub fn has_maps(self) -> bool {
        matches!(self, Kind::Mmap | Kind::Mixed)
    }

    /// Returns up to which size, in pages, sbrk may enlarge the heap.
    pub fn most_pages(self) -> u64 {
        match self {
            Kind::Cow => 24,
            Kind::Lazy => 800,
            Kind::Mmap => 6,
            Kind::Mixed => 200,
        }
    }
}
