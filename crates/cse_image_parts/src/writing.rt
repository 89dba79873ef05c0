//! Fields written at the end of a list of bytes.

ghost use Rattle.std.specs.Prelude.{◌≡◌, ◌++◌, OnOk, OnErr};
ghost use Rattle.std.specs.List.{flat_map};
ghost use Rattle.cse_image_parts.specs.Spelling.{u8 as u8_spelling, u16 as u16_spelling, u32 as u32_spelling, i64 as i64_spelling};

use byteorder::{ByteOrder, LittleEndian};
use std::alloc::AllocError;

/// A byte. Want of memory changes nothing.
#[inline]
pub fn put_u8(out: &mut Vec<u8>, n: u8) -> Result<(), AllocError>
    ensures bytes { OnOk result (out.new.items ≡ out.old.items ++ u8_spelling n) }
    ensures err { OnErr result (out.new.items ≡ out.old.items) }
{
    out.push(n)?;
    Ok(())
}

/// A number as two bytes, the lowest first. Want of memory changes nothing.
#[inline]
pub fn put_u16(out: &mut Vec<u8>, n: u16) -> Result<(), AllocError>
    ensures bytes { OnOk result (out.new.items ≡ out.old.items ++ u16_spelling n) }
    ensures err { OnErr result (out.new.items ≡ out.old.items) }
{
    let mut bytes = [0; 2];
    LittleEndian::write_u16(&mut bytes, n);
    out.extend_from_slice(&bytes)?;
    Ok(())
}

/// A number as four bytes, the lowest first. Want of memory changes nothing.
#[inline]
pub fn put_u32(out: &mut Vec<u8>, n: u32) -> Result<(), AllocError>
    ensures bytes { OnOk result (out.new.items ≡ out.old.items ++ u32_spelling n) }
    ensures err { OnErr result (out.new.items ≡ out.old.items) }
{
    let mut bytes = [0; 4];
    LittleEndian::write_u32(&mut bytes, n);
    out.extend_from_slice(&bytes)?;
    Ok(())
}

/// The number is read behind a reference, so that its range is known.
#[inline]
pub fn put_i64(out: &mut Vec<u8>, n: &i64) -> Result<(), AllocError>
    ensures bytes { OnOk result (out.new.items ≡ out.old.items ++ i64_spelling n.now) }
    ensures err { OnErr result (out.new.items ≡ out.old.items) }
{
    let mut bytes = [0; 8];
    LittleEndian::write_i64(&mut bytes, *n);
    out.extend_from_slice(&bytes)?;
    Ok(())
}

/// Bytes as they are. Want of memory changes nothing.
#[inline]
pub fn put_bytes(out: &mut Vec<u8>, bytes: &[u8]) -> Result<(), AllocError>
    ensures bytes { OnOk result (out.new.items ≡ out.old.items ++ bytes.now) }
    ensures err { OnErr result (out.new.items ≡ out.old.items) }
{
    out.extend_from_slice(bytes)
}

/// Numbers of four bytes each, one after another. Want of memory changes nothing.
pub fn put_u32s(out: &mut Vec<u8>, numbers: &[u32]) -> Result<(), AllocError>
    ensures bytes { OnOk result (out.new.items ≡ out.old.items ++ flat_map u32_spelling numbers.now) }
    ensures err { OnErr result (out.new.items ≡ out.old.items) }
{
    let len = out.len();
    for n in numbers {
        if let Err(refused) = put_u32(out, *n) {
            out.truncate(len);
            return Err(refused);
        }
    }
    Ok(())
}

/// Numbers of eight bytes each, one after another. Want of memory changes nothing.
pub fn put_i64s(out: &mut Vec<u8>, numbers: &[i64]) -> Result<(), AllocError>
    ensures bytes { OnOk result (out.new.items ≡ out.old.items ++ flat_map i64_spelling numbers.now) }
    ensures err { OnErr result (out.new.items ≡ out.old.items) }
{
    let len = out.len();
    for n in numbers {
        if let Err(refused) = put_i64(out, n) {
            out.truncate(len);
            return Err(refused);
        }
    }
    Ok(())
}
