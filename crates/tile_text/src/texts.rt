//! Bytes as a quoted word or as hexadecimal digits.

ghost use Rattle.std.specs.Prelude.{◌≡◌, ◌<◌, ◌≤◌, ◌++◌, length, IfOk, OnErr, OnOk, IsTrue};
ghost use Rattle.std.specs.List.{flat_map, position, position_or_len};
ghost use Rattle.hex.specs.Hex.{encode_lower};
ghost use Rattle.tile_text.specs.Extends.{Extends};
ghost use Rattle.tile_text.specs.Texts.{is_escaped, quoted_byte, quoted, text_form};

use hex::encode_to_slice;
use mvt_document::Items;
use std::alloc::{AllocError, Global};
use tile_lines::is_utf8;

/// How many bytes are turned into digits at a time.
const CHUNK: usize = 64;

/// The bytes as a text: between quotes where they are UTF-8, else as `x:` and hexadecimal digits.
pub fn quote(alloc: Global, bytes: &[u8]) -> Result<Items<u8>, AllocError>
    ensures { IfOk result (λ text. text.items ≡ text_form bytes.now) }
{
    let mut text = Vec::new(alloc);
    put_text(&mut text, bytes)?;
    Ok(Items::from_vec(text))
}

/// Adds the bytes as a text to the line.
pub fn put_text(line: &mut Vec<u8>, bytes: &[u8]) -> Result<(), AllocError>
    ensures ok { OnOk result (line.new.items ≡ line.old.items ++ text_form bytes.now) }
    ensures kept { Extends line.old.items line.new.items }
    ensures err { OnErr result (Extends line.new.items (line.old.items ++ text_form bytes.now)) }
{
    if is_utf8(bytes) {
        put_quoted(line, bytes)
    } else {
        line.extend_from_slice(b"x:")?;
        put_hex(line, bytes)
    }
}

fn put_quoted(line: &mut Vec<u8>, text: &[u8]) -> Result<(), AllocError>
    ensures ok { OnOk result (line.new.items ≡ line.old.items ++ quoted text.now) }
    ensures kept { Extends line.old.items line.new.items }
    ensures err { OnErr result (Extends line.new.items (line.old.items ++ quoted text.now)) }
{
    line.reserve(text.len() + 2)?;
    line.push(b'"')?;
    let mut rest = text;
    while !rest.is_empty() {
        rest = put_run(line, rest)?;
    }
    line.push(b'"')?;
    Ok(())
}

/// Adds the bytes up to the first that is escaped, and this one. What follows it is left.
fn put_run<'a>(line: &mut Vec<u8>, bytes: &'a [u8]) -> Result<&'a [u8], AllocError>
    ensures ok { IfOk result (λ rest. line.new.items ++ flat_map quoted_byte rest.now
        ≡ line.old.items ++ flat_map quoted_byte bytes.now) }
    ensures shorter { IfOk result (λ rest. 0 < length bytes.now → length rest.now < length bytes.now) }
    ensures kept { Extends line.old.items line.new.items }
    ensures err { OnErr result (Extends line.new.items (line.old.items ++ flat_map quoted_byte bytes.now)) }
{
    let (plain, following) = bytes.split_at(plain_len(bytes));
    line.extend_from_slice(plain)?;
    match following {
        [] => Ok(following),
        [byte, rest @ ..] => {
            put_escaped(line, *byte)?;
            Ok(rest)
        }
    }
}

/// How many bytes at the front stand for themselves.
fn plain_len(bytes: &[u8]) -> usize
    ensures place { result ≡ position_or_len is_escaped bytes.now }
    ensures within { result ≤ length bytes.now }
{
    first_escaped(bytes).unwrap_or(bytes.len())
}

fn first_escaped(bytes: &[u8]) -> Option<usize>
    ensures { result ≡ position is_escaped bytes.now }
{
    bytes.iter().position(|byte| is_escaped(*byte))
}

fn is_escaped(byte: u8) -> bool
    ensures { result ≡ is_escaped byte }
{
    matches!(byte, b'"' | b'\\') || byte.is_ascii_control()
}

/// Adds a byte that does not stand for itself.
fn put_escaped(line: &mut Vec<u8>, byte: u8) -> Result<(), AllocError>
    requires { IsTrue (is_escaped byte) }
    ensures ok { OnOk result (line.new.items ≡ line.old.items ++ quoted_byte byte) }
    ensures kept { Extends line.old.items line.new.items }
    ensures err { OnErr result (Extends line.new.items (line.old.items ++ quoted_byte byte)) }
{
    match byte {
        b'"' | b'\\' => line.extend_from_slice(&[b'\\', byte]),
        _ => {
            line.extend_from_slice(b"\\x")?;
            put_hex(line, &[byte])
        }
    }
}

/// Adds the bytes as hexadecimal digits, in lower case.
pub fn put_hex(line: &mut Vec<u8>, bytes: &[u8]) -> Result<(), AllocError>
    ensures ok { OnOk result (line.new.items ≡ line.old.items ++ encode_lower bytes.now) }
    ensures kept { Extends line.old.items line.new.items }
    ensures err { OnErr result (Extends line.new.items (line.old.items ++ encode_lower bytes.now)) }
{
    line.reserve(2 * bytes.len())?;
    for chunk in bytes.chunks(CHUNK) {
        put_hex_chunk(line, chunk)?;
    }
    Ok(())
}

fn put_hex_chunk(line: &mut Vec<u8>, chunk: &[u8]) -> Result<(), AllocError>
    requires { length chunk.now ≤ CHUNK }
    ensures ok { OnOk result (line.new.items ≡ line.old.items ++ encode_lower chunk.now) }
    ensures kept { Extends line.old.items line.new.items }
    ensures err { OnErr result (Extends line.new.items (line.old.items ++ encode_lower chunk.now)) }
{
    let mut room = [0; 2 * CHUNK];
    let digits = &mut room[..2 * chunk.len()];
    encode_to_slice(chunk, digits).unwrap();
    line.extend_from_slice(digits)
}
