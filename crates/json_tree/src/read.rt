//! From the bytes of a file to its tree.
ghost use Rattle.std.specs.Prelude.{◌≡◌, ◌≢◌, Ok, Err, IfOk, IfErr};
ghost use Rattle.serde_json.specs.View.{view};
ghost use Rattle.json_tree.specs.Tree.{object_of};

use serde_json::Value;
use std::alloc::Global;

/// The greatest length of a rules file or a deal file, in bytes.
pub const MAX_FILE_LENGTH: usize = 65536;

/// Why a file gives no object, in the order of the tests.
#[derive(Clone, Copy, Debug, PartialEq, Eq)]
pub enum FileFault {
    /// There are more than `MAX_FILE_LENGTH` bytes.
    TooLong,
    /// The bytes are no JSON, are not UTF-8 or nest too deep.
    NotJson,
    /// The tree is not an object.
    NotObject,
    Memory,
}

/// The object that the bytes of a file stand for, or the first reason why there is none.
pub fn read_object(alloc: Global, bytes: &[u8]) -> Result<Value, FileFault>
    ensures object { IfOk result (λ top. object_of bytes.now ≡ Ok (view top)) }
    ensures fault { IfErr result (λ fault. fault ≢ FileFault.Memory → object_of bytes.now ≡ Err fault) }
{
    if bytes.len() > MAX_FILE_LENGTH {
        return Err(FileFault::TooLong);
    }
    match Value::from_slice(alloc, bytes) {
        Ok(top) => {
            if top.is_object() {
                Ok(top)
            } else {
                Err(FileFault::NotObject)
            }
        }
        Err(error) if error.is_memory() => Err(FileFault::Memory),
        Err(_) => Err(FileFault::NotJson),
    }
}
