// Names of files inside other texts.
ghost use Rattle.std.specs.Prelude.{◌≡◌, ◌++◌, ◌<◌, OnOk};
ghost use Rattle.image_reports.specs.Names.{hex_digit as hex_digit_by, json_byte, json_name, is_blank as is_blank_by, table_byte, table_name};

use std::alloc::AllocError;

/// Adds a name inside a string of JSON.
pub(crate) fn push_json_name(text: &mut Vec<u8>, name: &[u8]) -> Result<(), AllocError>
    ensures { OnOk result (text.new.items ≡ text.old.items ++ json_name name.now) }
{
    for byte in name {
        push_json_byte(text, *byte)?;
    }
    Ok(())
}

fn push_json_byte(text: &mut Vec<u8>, byte: u8) -> Result<(), AllocError>
    ensures { OnOk result (text.new.items ≡ text.old.items ++ json_byte byte) }
{
    if byte == b'"' || byte == b'\\' {
        text.push(b'\\')?;
        text.push(byte)?;
        return Ok(());
    }
    if byte < 16 {
        text.extend_from_slice(b"\\u000")?;
        text.push(hex_digit(byte))?;
        return Ok(());
    }
    if byte < 32 {
        text.extend_from_slice(b"\\u001")?;
        text.push(hex_digit(byte - 16))?;
        return Ok(());
    }
    text.push(byte)?;
    Ok(())
}

/// A digit to the base of 16.
fn hex_digit(number: u8) -> u8
    requires { number < 16 }
    ensures { result ≡ hex_digit_by number }
{
    if number < 10 {
        b'0' + number
    } else {
        b'a' - 10 + number
    }
}

/// Adds a name inside a line of a table.
pub(crate) fn push_table_name(text: &mut Vec<u8>, name: &[u8]) -> Result<(), AllocError>
    ensures { OnOk result (text.new.items ≡ text.old.items ++ table_name name.now) }
{
    for byte in name {
        push_table_byte(text, *byte)?;
    }
    Ok(())
}

fn push_table_byte(text: &mut Vec<u8>, byte: u8) -> Result<(), AllocError>
    ensures { OnOk result (text.new.items ≡ text.old.items ++ table_byte byte) }
{
    if is_blank(byte) || byte == b'\\' {
        text.push(b'\\')?;
        text.push(byte)?;
        return Ok(());
    }
    text.push(byte)?;
    Ok(())
}

/// Whether a kernel takes a byte for a blank.
fn is_blank(byte: u8) -> bool
    ensures { result ≡ is_blank_by byte }
{
    byte == 32 || byte == 160 || (9 <= byte && byte <= 13)
}
