use super::*;
use std::test::Fail;

// An edit of a short text.
fn put(
    text: &mut Text,
    alloc: Global,
    from: Pos,
    to: Pos,
    new: &str,
    encoding: Encoding,
) -> Result<(), EditFault> {
    if text.as_str().len() > 1000 || new.len() > 1000 {
        return Err(EditFault::NoMemory);
    }
    laws::edits_have_sizes();
    text.splice(alloc, from, to, new, encoding)
}

fn place(text: &Text, at: u32, encoding: Encoding) -> Option<Pos> {
    if !text.as_str().is_char_boundary(at as usize) {
        return None;
    }
    laws::starts_are_boundaries();
    Some(text.pos(at, encoding))
}

fn at(line: u32, unit: u32) -> Pos {
    Pos { line, unit }
}

#[test]
fn edits_by_utf16_units(rt: HostRuntime) -> Result<(), Fail> {
    let alloc = rt.alloc();
    let rows = [
        ("a😀b\n", at(0, 3), at(0, 4), "c", "a😀c\n"),
        ("a😀b\n", at(0, 2), at(0, 3), "", "ab\n"),
        ("a😀b\n", at(0, 99), at(0, 99), "z", "a😀bz\n"),
        ("a😀b\n", at(9, 0), at(9, 0), "q", "a😀b\nq"),
        ("", at(0, 0), at(3, 7), "é", "é"),
        ("x\r\ny", at(0, 1), at(1, 0), "", "xy"),
        ("x\r\ny", at(0, 9), at(0, 9), "\r", "x\r\r\ny"),
        ("x\ry", at(1, 0), at(1, 0), "\n", "x\r\ny"),
    ];
    for (before, from, to, new, after) in rows {
        let mut text = Text::from_bytes(alloc, before.as_bytes())?;
        put(&mut text, alloc, from, to, new, Encoding::Utf16)?;
        assert!(rt; text.as_str() == after, "{before:?}");
    }
    Ok(())
}

#[test]
fn edits_by_other_encodings(rt: HostRuntime) -> Result<(), Fail> {
    let alloc = rt.alloc();
    let rows = [
        (Encoding::Utf8, at(0, 5), at(0, 6), "c", "a😀c\n"),
        (Encoding::Utf8, at(0, 3), at(0, 5), "", "ab\n"),
        (Encoding::Utf8, at(0, 99), at(0, 99), "z", "a😀bz\n"),
        (Encoding::Utf32, at(0, 2), at(0, 3), "c", "a😀c\n"),
        (Encoding::Utf32, at(0, 1), at(0, 2), "", "ab\n"),
        (Encoding::Utf32, at(0, 99), at(0, 99), "z", "a😀bz\n"),
    ];
    for (encoding, from, to, new, after) in rows {
        let mut text = Text::from_bytes(alloc, "a😀b\n".as_bytes())?;
        put(&mut text, alloc, from, to, new, encoding)?;
        assert!(rt; text.as_str() == after, "{encoding:?}");
    }
    Ok(())
}

#[test]
fn places_by_each_encoding(rt: HostRuntime) -> Result<(), Fail> {
    let alloc = rt.alloc();
    // Characters of one, two, three and four bytes, a line's end, and one more. An offset, and its places by
    // bytes, by UTF-16 units and by characters.
    let text = Text::from_bytes(alloc, "xé€😀\r\nü".as_bytes())?;
    let rows = [
        (0, at(0, 0), at(0, 0), at(0, 0)),
        (1, at(0, 1), at(0, 1), at(0, 1)),
        (3, at(0, 3), at(0, 2), at(0, 2)),
        (6, at(0, 6), at(0, 3), at(0, 3)),
        (10, at(0, 10), at(0, 5), at(0, 4)),
        (11, at(0, 10), at(0, 5), at(0, 4)),
        (12, at(1, 0), at(1, 0), at(1, 0)),
        (14, at(1, 2), at(1, 1), at(1, 1)),
    ];
    for (offset, bytes, units, characters) in rows {
        assert_eq!(rt;
            place(&text, offset, Encoding::Utf8),
            Some(bytes),
            "{offset}"
        );
        assert_eq!(rt;
            place(&text, offset, Encoding::Utf16),
            Some(units),
            "{offset}"
        );
        assert_eq!(rt;
            place(&text, offset, Encoding::Utf32),
            Some(characters),
            "{offset}"
        );
        if offset != 11 {
            assert_eq!(rt; text.offset(bytes, Encoding::Utf8), offset);
            assert_eq!(rt; text.offset(units, Encoding::Utf16), offset);
            assert_eq!(rt; text.offset(characters, Encoding::Utf32), offset);
        }
    }
    // A place inside a character is the character's start.
    assert_eq!(rt; text.offset(at(0, 2), Encoding::Utf8), 1);
    assert_eq!(rt; text.offset(at(0, 9), Encoding::Utf8), 6);
    assert_eq!(rt; text.offset(at(0, 4), Encoding::Utf16), 6);
    Ok(())
}

#[test]
fn refuses_backwards(rt: HostRuntime) -> Result<(), Fail> {
    let alloc = rt.alloc();
    let mut text = Text::from_bytes(alloc, "a😀b\n".as_bytes())?;
    let fault = put(&mut text, alloc, at(0, 4), at(0, 1), "c", Encoding::Utf16);
    assert_eq!(rt; fault, Err(EditFault::Backwards { start: 6, end: 1 }));
    assert!(rt; text.as_str() == "a😀b\n");
    Ok(())
}

#[test]
fn places(rt: HostRuntime) -> Result<(), Fail> {
    let alloc = rt.alloc();
    // The text, an offset, and its position.
    let rows = [
        ("", 0, at(0, 0)),
        ("a😀b\n", 5, at(0, 3)),
        ("a😀b\n", 7, at(1, 0)),
        ("x\r\ny\rz", 1, at(0, 1)),
        ("x\r\ny\rz", 2, at(0, 1)),
        ("x\r\ny\rz", 3, at(1, 0)),
        ("x\r\ny\rz", 5, at(2, 0)),
        ("x\r\ny\rz", 6, at(2, 1)),
        ("é\n\nü", 4, at(2, 0)),
    ];
    for (bytes, offset, position) in rows {
        let text = Text::from_bytes(alloc, bytes.as_bytes())?;
        assert_eq!(rt;
            place(&text, offset, Encoding::Utf16),
            Some(position),
            "{bytes:?}"
        );
        let inside = bytes == "x\r\ny\rz" && offset == 2;
        assert_eq!(rt;
            text.offset(position, Encoding::Utf16),
            if inside { 1 } else { offset },
            "{bytes:?}"
        );
    }
    Ok(())
}

#[test]
fn refuses_other_bytes(rt: HostRuntime) -> Result<(), Fail> {
    let alloc = rt.alloc();
    let rows: [(&[u8], u64); 4] = [
        (b"ab\xff", 2),
        (b"a\xf0\x9f\x98", 1),
        (b"\xed\xa0\x80", 0),
        (b"\xc3\xa9\xc3", 2),
    ];
    for (bytes, at) in rows {
        match Text::from_bytes(alloc, bytes) {
            Ok(_) => assert!(rt; false),
            Err(fault) => assert_eq!(rt; fault, TextFault::NotUtf8 { at }),
        }
    }
    Ok(())
}

#[test]
fn holds_the_longest_text(rt: HostRuntime) -> Result<(), Fail> {
    let alloc = rt.alloc();
    let bytes = vec![in alloc; b'\n'; 16_777_216]?;
    let text = Text::from_bytes(alloc, bytes.as_slice())?;
    assert_eq!(rt;
        place(&text, 16_777_216, Encoding::Utf16),
        Some(at(16_777_216, 0))
    );
    assert_eq!(rt; text.offset(at(16_777_215, 3), Encoding::Utf16), 16_777_215);
    Ok(())
}
