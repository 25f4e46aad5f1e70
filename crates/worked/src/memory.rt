//! Whether an allocation was just refused, for tests that call again afterwards: `tests/refuse_memory.c` refuses it.

use std::alloc::Global;

/// A number of bytes that nothing else requests: by it `tests/refuse_memory.c` recognises the question whether it
/// refused.
const ASKED: usize = 1_000_003;

/// Whether the last allocation before this call was refused. From here on each is granted.
pub fn gave_out(alloc: Global) -> bool {
    Vec::<u8>::with_capacity(alloc, ASKED).is_err()
}

/// Expected of a call that has just returned: an error if memory ran out in it. From here on memory is granted.
pub fn owed<T: Copy>(alloc: Global, refusal: T, right: T) -> T {
    if gave_out(alloc) { refusal } else { right }
}

/// The same of a call that can do without some of its memory, and returned this: the right result, if that was
/// returned.
pub fn owed_unless_right<T: Copy + PartialEq>(alloc: Global, given: T, refusal: T, right: T) -> T {
    if gave_out(alloc) && given != right {
        refusal
    } else {
        right
    }
}
