// `expect`: asserts that a row of a test gave what it must give. It is proved once; an `assert_eq!` costs the prover twice as
// much as a call of it.

use std::fmt::Debug;
use std::process::Abort;

/// Asserts that the row with this number gave `wanted`.
pub(crate) fn expect<R: Abort, T: PartialEq + Debug + Copy>(
    rt: &R,
    number: usize,
    given: T,
    wanted: T,
) {
    assert_eq!(rt; (number, given), (number, wanted));
}
