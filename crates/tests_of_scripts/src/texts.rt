// Tests that `put_decimal`, `put` and `put_bytes` write the longest decimal number, and bytes of more than one piece. The texts of
// replies and reports are those of the rows of `row_player`.

use script_language::{put, put_bytes, put_decimal};
use std::test::Fail;

/// Into a vector of the least capacity that the contracts ask for.
#[test]
fn prints_numbers_and_bytes(rt: HostRuntime) -> Result<(), Fail> {
    let mut said = Vec::with_capacity(rt.alloc(), 22 + 2 * 33 + 1)?;
    put_decimal(&mut said, u64::MAX);
    put(&mut said, b", ");
    put_bytes(&mut said, b"0123456789abcdef0123456789abcdef!");
    let want = "18446744073709551615, \
        303132333435363738396162636465663031323334353637383961626364656621";
    assert_eq!(rt; said.as_slice(), want.as_bytes());
    Ok(())
}
