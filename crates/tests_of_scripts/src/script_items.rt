// Tests that `Script::read` returns a script with the declarations and commands of its text. What these say is seen in the rows of
// `row_player`: `play` reads scripts as `Script::read` does.

use script_reader::Script;
use std::test::Fail;

/// A file, two images, a `boot`, and four commands.
const WHOLE: &str =
    "file 5 ro 6162\n# two images\r\nimage 0x0:0x1000:rx:13050000\t0x1000:0x1800:rw:-\r\nimage 0:0:-:-\n\n\
    boot 8 0x400 64 full\nstart 1\non 0 1\nenter 0\nleave 0";

#[test]
fn reads_a_whole_script(rt: HostRuntime) -> Result<(), Fail> {
    let Ok(script) = Script::read(rt.alloc(), WHOLE.as_bytes()) else {
        return Err(Fail::from("a script is refused"));
    };
    let told = [
        script.files().len(),
        script.images().len(),
        script.commands().len(),
        script.config().frames,
    ];
    assert_eq!(rt; told, [1, 2, 4, 1024]);
    Ok(())
}
