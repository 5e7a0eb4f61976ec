use crate::{Json, JsonFault, member, read, write};
use std::alloc::{AllocError, Global};
use std::test::Fail;

#[test]
fn writes_what_was_read(rt: HostRuntime) -> Result<(), Fail> {
    for (text, want) in [
        (r#"{"b":1,"a":"x"}"#, r#"{"a":"x","b":1}"#),
        (r#"{"a":1.5,"a":2}"#, r#"{"a":2}"#),
        (
            r#"{ "x" : [true, null, -3, "é\n"] }"#,
            r#"{"x":[true,null,-3,"é\n"]}"#,
        ),
        ("-9223372036854775808", "-9223372036854775808"),
    ] {
        let json = read(rt.alloc(), text.as_bytes())?;
        let written = write(rt.alloc(), &json)?;
        assert_eq!(rt; written.as_slice(), want.as_bytes(), "at {text}");
    }
    Ok(())
}

#[test]
fn names_the_fault(rt: HostRuntime) {
    for (text, want) in [
        (b"1.5".as_slice(), JsonFault::NotWhole),
        (b"-0".as_slice(), JsonFault::NotWhole),
        (b"1e2".as_slice(), JsonFault::NotWhole),
        (b"9223372036854775808".as_slice(), JsonFault::NotWhole),
        (b"hello".as_slice(), JsonFault::NotJson),
        (b"".as_slice(), JsonFault::NotJson),
        (b"{\"a\":1} 2".as_slice(), JsonFault::NotJson),
        (b"\"\\ud800\"".as_slice(), JsonFault::NotJson),
        (b"\"\xff\"".as_slice(), JsonFault::NotJson),
    ] {
        assert_eq!(rt; read(rt.alloc(), text).err(), Some(want), "at {text:?}");
    }
}

#[test]
fn nests_to_a_depth_of_127(rt: HostRuntime) -> Result<(), Fail> {
    let deepest = nested(rt.alloc(), 127)?;
    assert!(rt; read(rt.alloc(), &deepest).is_ok());
    let deeper = nested(rt.alloc(), 128)?;
    assert_eq!(rt; read(rt.alloc(), &deeper).err(), Some(JsonFault::NotJson));
    Ok(())
}

fn nested(alloc: Global, depth: usize) -> Result<Vec<u8>, AllocError> {
    let mut text = Vec::new(alloc);
    for _ in 0..depth {
        text.push(b'[')?;
    }
    for _ in 0..depth {
        text.push(b']')?;
    }
    Ok(text)
}

#[test]
fn looks_into_a_tree(rt: HostRuntime) -> Result<(), Fail> {
    let json = read(
        rt.alloc(),
        br#"{"flag":true,"list":["only"],"n":-3,"text":"x"}"#,
    )?;
    let members = json.as_members().ok_or("no object")?;
    let list = member(members, "list")
        .and_then(Json::as_list)
        .ok_or("no list")?;
    assert_eq!(rt; list.len(), 1);
    assert_eq!(rt; member(members, "text").and_then(Json::as_text), Some("x"));
    assert_eq!(rt; member(members, "n").and_then(Json::as_int), Some(-3));
    assert_eq!(rt; member(members, "flag").and_then(Json::as_flag), Some(true));
    assert!(rt; member(members, "other").is_none());
    assert!(rt; json.as_text().is_none() && json.as_list().is_none());
    Ok(())
}
