use srb_terms::{Name, Words};
use std::alloc::AllocError;

// Texts of no byte, of 13, 14 and 15 bytes, of 14 bytes in five characters of two and one of four, and of 42 bytes.
const TEXTS: [&str; 6] = [
    "",
    "thirteen_byte",
    "fourteen_bytes",
    "fifteen_bytes_x",
    "ääääą😀",
    "a_name_that_lies_on_the_heap_and_is_shared",
];

#[test]
fn a_text_stays_the_same_wherever_it_lies(rt: HostRuntime) -> Result<(), AllocError> {
    let alloc = rt.alloc();
    for text in TEXTS {
        let name = Name::from_str(alloc, text)?;
        let words = Words::from_str(alloc, text)?;
        assert_eq!(rt; name.as_str(), text);
        assert_eq!(rt; words.as_str(), text);
        assert_eq!(rt; name.len(), text.len());
        assert_eq!(rt;
            Name::from_string(String::from_str(alloc, text)?)?.as_str(),
            text
        );
        assert_eq!(rt;
            Words::from_string(String::from_str(alloc, text)?)?.as_str(),
            text
        );
        assert_eq!(rt; name.to_words()?.as_str(), text);
        assert_eq!(rt; Name::from_words(&words)?.as_str(), text);
        let copy = name.copied()?;
        drop(name);
        assert_eq!(rt; copy.as_str(), text);
        assert!(rt; Words::lie_in_place(text) == (text.len() <= 14));
    }
    Ok(())
}

#[test]
fn texts_that_differ_in_the_last_byte_are_not_equal(rt: HostRuntime) -> Result<(), AllocError> {
    let alloc = rt.alloc();
    for (one, other) in [
        ("fourteen_bytes", "fourteen_bytez"),
        ("fifteen_bytes_x", "fifteen_bytes_y"),
        ("fourteen_bytes", "fourteen_bytes_"),
        ("", "a"),
        ("", "\0"),
        ("a", "a\0"),
        ("a\0", "a\0\0"),
    ] {
        let one = Name::from_str(alloc, one)?;
        let other = Name::from_str(alloc, other)?;
        assert!(rt; !one.is_same(&other));
        assert!(rt; one.is_same(&one.copied()?));
        assert!(rt; one < other);
        assert!(rt; !one.to_words()?.is_same(&other.to_words()?));
    }
    Ok(())
}
