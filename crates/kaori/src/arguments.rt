// The arguments that the program was started with.
ghost use Rattle.std.specs.Prelude.{◌≤◌, length, IfOk};

use std::env::{Env, FillError};
use std::io::Error;

// The system's errors for an argument that is missing, and for one that is too long.
const EINVAL: i32 = 22;

const ENAMETOOLONG: i32 = 36;

// Argument i, put at the start of a room.
pub(crate) fn read<'a>(rt: &HostRuntime, i: usize, room: &'a mut [u8]) -> Result<&'a [u8], Error>
    ensures { IfOk result (λ bytes. length bytes.now ≤ length room.old) }
{
    match rt.arg(i, room) {
        Ok(n) => Ok(&room[..n]),
        Err(FillError::NotPresent) => Err(Error::from_raw_os_error(EINVAL)),
        Err(FillError::TooLong) => Err(Error::from_raw_os_error(ENAMETOOLONG)),
    }
}

// How many arguments there are, the program's own name among them.
pub(crate) fn count(rt: &HostRuntime) -> usize {
    let mut none = [0u8; 0];
    for i in 0..usize::MAX {
        if let Err(FillError::NotPresent) = rt.arg(i, &mut none) {
            return i;
        }
    }
    usize::MAX
}
