// The C program around the tests: `put_head`, the text above them with the runtime, and `put_main`, the `main` below.

use crate::runtime::{OPTIONS, TURNS};
use crate::runtime_steps::{ACCESSES, FILES};
use std::alloc::{AllocError, Global};
use usertest_rows::Kind;

/// The names of the functions of the tests of a C program.
#[derive(Drop)]
pub struct Names {
    /// The tests, each with a comma before it but for the first.
    tests: String,
    /// How many tests there are.
    count: usize,
    /// The functions that go on after an exec, each with a comma and a blank after it.
    parts: String,
    /// How many such functions there are.
    pub parts_count: usize,
}

impl Names {
    /// Returns no names.
    pub fn new(alloc: Global) -> Names {
        Names {
            tests: String::new(alloc),
            count: 0,
            parts: String::new(alloc),
            parts_count: 0,
        }
    }

    /// Adds the names of a test: what those of its functions begin with, and those that go on after an exec.
    pub fn add(&mut self, prefix: &str, parts: &[String]) -> Result<(), AllocError> {
        let comma = if self.count > 0 { ", " } else { "" };
        write!(&mut self.tests, "{comma}{prefix}test")?;
        self.count = self.count.saturating_add(1);
        for part in parts {
            self.parts.push_str(part.as_str())?;
            self.parts.push_str(", ")?;
            self.parts_count = self.parts_count.saturating_add(1);
        }
        Ok(())
    }
}

/// The headers that a program includes.
const HEADERS: &str = "#include \"kernel/types.h\"
#include \"kernel/stat.h\"
#include \"kernel/fcntl.h\"
#include \"user/user.h\"
";

/// Appends what stands above the tests of a kind: the title, the headers, and the runtime.
pub fn put_head(
    alloc: Global,
    out: &mut Vec<u8>,
    kind: Kind,
    title: &str,
) -> Result<(), AllocError> {
    let maps = if kind.has_maps() {
        "#define KIT_MAPS\n"
    } else {
        ""
    };
    let head = format!(in alloc;
        "// {title}: made by `xv6lab usertest`. A step is a line of the script of that name.\n"
    )?;
    out.extend_from_slice(head.as_str().as_bytes())?;
    for text in [HEADERS, maps, OPTIONS, TURNS, ACCESSES, FILES].iter() {
        out.extend_from_slice(text.as_bytes())?;
    }
    Ok(())
}

/// Appends what stands below the tests: `main`.
pub fn put_main(alloc: Global, out: &mut Vec<u8>, names: &Names) -> Result<(), AllocError> {
    let (tests, parts, count) = (names.tests.as_str(), names.parts.as_str(), names.count);
    let main = format!(in alloc;
        "\nint main(int argc, char *argv[])\n{{\n  static const Life tests[] = {{ {tests} }};\n  static const Life parts[] = {{ {parts}0 }};\n  run_all(argc, argv, tests, {count}, parts);\n}}\n"
    )?;
    out.extend_from_slice(main.as_str().as_bytes())
}
