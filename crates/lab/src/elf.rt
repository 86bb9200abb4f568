// `put_elf`: puts the line of a script that declares an ELF file.

use lab_host::{Fault, Printout};
use process_model::LONGEST_IMAGE;

/// Puts `elf HEX`, or `elf -` for a file without a byte.
///
/// # Errors
/// `Told`: the file has more bytes than an image may have; that was told. `Memory`: the host is out of memory.
pub fn put_elf(out: &mut Printout, file: &str, bytes: &[u8]) -> Result<(), Fault> {
    if bytes.len() > LONGEST_IMAGE {
        out.tell(format_args!(
            "{file}: more than {LONGEST_IMAGE} bytes, which is the most that an image may have; strip the file\n"
        ));
        return Err(Fault::Told);
    }
    let digits = hex::encode(out.allocator(), bytes)?;
    if digits.is_empty() {
        out.out.push_str("elf -\n");
    } else {
        writeln!(&mut out.out, "elf {digits}");
    }
    Ok(())
}
