//! Bytes in a buffer of C.

ghost use Rattle.std.specs.Prelude.{◌≡◌, length};
ghost use Rattle.cse_ffi.specs.Buffers.{has_room, put_in};

/// Puts bytes at the front of a buffer that has room for them. Whether it has.
pub(crate) fn is_put(bytes: &[u8], buffer: &mut [u8]) -> bool
    ensures room { result ≡ has_room bytes.now buffer.old }
    ensures put { buffer.new ≡ put_in bytes.now buffer.old }
{
    let has_room = bytes.len() <= buffer.len();
    if has_room {
        buffer[..bytes.len()].copy_from_slice(bytes);
    }
    has_room
}

/// The length of bytes, for C.
pub(crate) fn length(bytes: &[u8]) -> u64
    ensures { result ≡ length bytes.now }
{
    bytes.len() as u64
}
