//! Lines that are not requests.
use std::alloc::{AllocError, Global};
use std::test::Fail;
use wire_json::read_request;

/// Fields of an object that is not a request, after `{"pad":"p",`.
const UNASKED: &[&str] = &[
    r#""do":"insert","rev":0,"at":1.0,"text":"a""#,
    r#""do":"insert","rev":0,"at":-1,"text":"a""#,
    r#""do":"insert","rev":0,"at":-0,"text":"a""#,
    r#""do":"insert","rev":0,"at":1e2,"text":"a""#,
    r#""do":"insert","rev":0,"at":0e0,"text":"a""#,
    r#""do":"insert","rev":0,"at":18446744073709551616,"text":"a""#,
    r#""do":"insert","rev":0,"at":"1","text":"a""#,
    r#""do":"insert","rev":null,"at":1,"text":"a""#,
    r#""do":"insert","rev":0,"text":"a""#,
    r#""do":"insert","rev":0,"at":1"#,
    r#""do":"insert","rev":0,"at":1,"text":null"#,
    r#""do":"insert","rev":0,"at":1,"text":["a"]"#,
    r#""do":"delete","rev":0,"at":1,"len":1e-999"#,
    r#""do":"comment","rev":null,"at":0,"len":1,"text":"c""#,
    r#""do":"caret","at":1"#,
    r#""do":"text","rev":-1"#,
    r#""do":"text","rev":"0""#,
    r#""do":"entries","from":1"#,
    r#""do":"changes","rev":null"#,
    r#""do":"changes","rev":1,"to":"2""#,
    r#""do":"changes","rev":1,"wait":0.5"#,
    r#""do":"resolve","comment":[0,1]"#,
    r#""do":"resolve","comment":[65536,1]"#,
    r#""do":"resolve","comment":[1,0]"#,
    r#""do":"resolve","comment":[1,1,1]"#,
    r#""do":"resolve","comment":"1""#,
    r#""do":"edit","rev":1,"parts":[{"at":1}]"#,
    r#""do":"edit","rev":1,"parts":[{"at":1,"len":1,"text":"a"}]"#,
    r#""do":"edit","rev":1,"parts":[{"at":1,"len":1,"text":null}]"#,
    r#""do":"edit","rev":1,"parts":[{"len":1}]"#,
    r#""do":"edit","rev":1,"parts":[1]"#,
    r#""do":"edit","rev":1,"parts":{"at":1,"len":1}"#,
    r#""do":"edit","parts":[]"#,
    r#""do":"grant","author":"bob","right":"Read""#,
    r#""do":"grant","author":"bob","right":null"#,
    r#""do":"grant","author":1,"right":"read""#,
    r#""do":"invite","secret":"k3Zt0Qm8vJx2bN5wYcR7Ag","right":"own""#,
    r#""do":"invite","secret":"k3Zt0Qm8vJx2bN5wYcR7Ag","right":"none""#,
    r#""do":"invite","secret":"k3Zt0Qm8vJx2bN5wYcR7Ag","right":"Read""#,
    r#""do":"invite","secret":"k3Zt0Qm8vJx2bN5wYcR7Ag","right":null"#,
    r#""do":"invite","secret":"k3Zt0Qm8vJx2bN5wYcR7Ag""#,
    r#""do":"invite","secret":1,"right":"read""#,
    r#""do":"invite","secret":"","right":"read""#,
    r#""do":"invite","secret":"k3Zt0Qm8vJx2bN5wYcR7A","right":"read""#,
    r#""do":"invite","secret":"k3Zt0Qm8vJx2bN5wYcR7AgA","right":"read""#,
    r#""do":"invite","secret":"k3Zt0Qm8vJx2bN5wYcR7A.","right":"read""#,
    r#""do":"invite","author":"k3Zt0Qm8vJx2bN5wYcR7Ag","right":"read""#,
    r#""do":"mark","rev":1"#,
    r#""do":"mark","text":"a""#,
    r#""do":"mark","rev":null,"text":"a""#,
    r#""do":"mark","rev":1,"text":null"#,
    r#""do":"people""#,
    r#""do":"people","authors":[]"#,
    r#""do":"people","authors":"ann""#,
    r#""do":"people","authors":["ann",1]"#,
    r#""do":"pull","max":4"#,
    r#""do":"pull","seen":null,"max":4"#,
    r#""do":"pull","seen":[[2,1],[1,1]],"max":4"#,
    r#""do":"pull","seen":[[1,1],[1,1]],"max":4"#,
    r#""do":"pull","seen":[[1,0]],"max":4"#,
    r#""do":"pull","seen":[],"batch":4"#,
    r#""do":"pull","seen":[],"max":4,"batch":0"#,
    r#""do":"pull","seen":[],"max":4,"batch":257"#,
    r#""do":"pull","seen":[],"max":4,"batch":18446744073709551616"#,
    r#""do":"pull","seen":[],"max":4,"batch":-1"#,
    r#""do":"pull","seen":[],"max":4,"batch":1.5"#,
    r#""do":"pull","seen":[],"max":4,"batch":4.0"#,
    r#""do":"pull","seen":[],"max":4,"batch":"4""#,
    r#""do":"pull","seen":[],"max":4,"batch":null"#,
    r#""do":"pull","seen":[],"max":4,"batch":true"#,
    r#""do":"pull","seen":[],"max":4,"batch":[4]"#,
    r#""do":"peer","number":1,"token":"p","version":3"#,
    r#""do":"peer","number":1,"token":"p","version":2.0"#,
    r#""do":"peer","number":1,"token":7"#,
    r#""do":"hello","name":"ann""#,
    r#""do":"guest""#,
    r#""do":"guest","token":null"#,
    r#""do":"guest","name":"ann""#,
    r#""do":"guest","token":"""#,
    r#""do":"guest","token":"k3Zt0Qm8vJx2bN5wYcR7Ag""#,
    r#""do":"guest","token":"k3Zt0Qm8vJx2bN5wYcR7Ag.""#,
    r#""do":"guest","token":"k3Zt0Qm8vJx2bN5wYcR7Ag-9hUe_Lr4TqP-d6XoVs1KzA""#,
    r#""do":"guest","token":"k3Zt0Qm8vJx2bN5wYcR7Ag.9hUe_Lr4TqP-d6XoVs1KzA.""#,
    r#""do":"guest","token":"k3Zt0Qm8vJx2bN5wYcR7Ag.9hUe_Lr4TqP-d6XoVs1Kz=""#,
    r#""do":"push""#,
    r#""do":"Text""#,
    r#""do":["text"]"#,
    r#""x":"text""#,
    r#""do":"push","op":7"#,
    r#""do":"push","op":{"author":"ann","name":[1,2],"seen":[],"spans":[[2,1,2]]}"#,
    r#""do":"push","op":{"author":"ann","kind":"erase","name":[1,2],"seen":[],"spans":[[2,1,2]]}"#,
    r#""do":"push","op":{"author":"ann","kind":"delete","name":[1,0],"seen":[],"spans":[[2,1,2]]}"#,
    r#""do":"push","op":{"author":"ann","kind":"delete","name":[0,1],"seen":[],"spans":[[2,1,2]]}"#,
    r#""do":"push","op":{"author":"ann","kind":"delete","name":[1,1],"spans":[[2,1,2]]}"#,
    r#""do":"push","op":{"author":"ann","kind":"delete","name":[1,1],"seen":null,"spans":[[2,1,2]]}"#,
    r#""do":"push","op":{"author":"ann","kind":"delete","name":[1,1],"seen":[[2,0]],"spans":[[2,1,2]]}"#,
    r#""do":"push","op":{"author":"ann","kind":"delete","name":[1,1],"seen":[[3,1],[2,1]],"spans":[[2,1,2]]}"#,
    r#""do":"push","op":{"author":"ann","kind":"delete","name":[1,1],"seen":[],"spans":[[0,1,2]]}"#,
    r#""do":"push","op":{"author":"ann","kind":"delete","name":[1,1],"seen":[],"spans":[[2,0,2]]}"#,
    r#""do":"push","op":{"author":"ann","kind":"delete","name":[1,1],"seen":[],"spans":[[281474976710657,1,2]]}"#,
    r#""do":"push","op":{"author":"ann","kind":"delete","name":[1,1],"seen":[],"spans":[[2,1]]}"#,
    r#""do":"push","op":{"author":"ann","kind":"delete","name":[1,1],"seen":[]}"#,
    r#""do":"push","op":{"kind":"delete","name":[1,1],"seen":[],"spans":[[2,1,2]]}"#,
    r#""do":"push","op":{"author":"bob","first":[5,2],"kind":"insert","name":[2,1],"seen":[],"text":"X"}"#,
    r#""do":"push","op":{"after":[2,1,1],"author":"bob","first":[5,2],"kind":"insert","name":[2,1],"seen":[],"text":"X"}"#,
    r#""do":"push","op":{"after":null,"author":"bob","first":null,"kind":"insert","name":[2,1],"seen":[],"text":"X"}"#,
    r#""do":"push","op":{"after":null,"author":"bob","first":[5,2],"kind":"insert","name":[2,1],"seen":[]}"#,
    r#""do":"push","op":{"author":"ann","first":[2,1],"kind":"comment","name":[1,2],"seen":[],"text":"c"}"#,
    r#""do":"push","op":{"author":"ann","comment":[1],"kind":"resolve","name":[1,2],"seen":[]}"#,
    r#""do":"push","op":{"author":"solo","kind":"edit","name":[1,2],"parts":[{"kind":"delete","spans":[[2,1,3]]}],"seen":[]}"#,
    r#""do":"push","op":{"author":"solo","kind":"edit","name":[1,2],"parts":[{"kind":"edit","parts":[]},{"kind":"delete","spans":[[2,1,3]]}],"seen":[]}"#,
    r#""do":"push","op":{"author":"solo","kind":"edit","name":[1,2],"seen":[]}"#,
];

/// The number of a line's refusal, if it is refused.
fn code_of(alloc: Global, line: &[u8]) -> Option<u16> {
    Some(read_request(alloc, line).err()?.code())
}

/// The same for an object of the pad `p` with these fields.
fn code_with(alloc: Global, fields: &str) -> Result<Option<u16>, AllocError> {
    let line = format!(in alloc; r#"{{"pad":"p",{fields}}}"#)?;
    Ok(code_of(alloc, line.as_bytes()))
}

#[test]
fn other_forms_are_no_requests(rt: HostRuntime) -> Result<(), Fail> {
    for fields in UNASKED {
        let came = code_with(rt.alloc(), fields)?;
        assert!(rt; came == Some(102), "{fields}: wanted 102, came {came:?}");
    }
    Ok(())
}

/// Lines with the number of their refusal.
const REFUSED: &[(&[u8], u16)] = &[
    (br#"{"do":"text""#, 101),
    (b" ", 101),
    (b"\r", 101),
    (b"null", 102),
    (b"[]", 102),
    (b"7", 102),
    (br#""text""#, 102),
    (b"{}", 102),
    (br#"{"do":"text"}"#, 102),
    (br#"{"do":"text","pad":7}"#, 102),
    (br#"{"do":"text","pad":"p",}"#, 101),
    (br#"{"do":"text","pad":"p"}{}"#, 101),
    (br#"{"do":"text","pad":"p","x":1e999}"#, 101),
    (br#"{"do":"text","pad":"p","x":01}"#, 101),
    (br#"{"do":"text","pad":"p","x":+1}"#, 101),
    (br#"{"do":"text","pad":"p","x":.5}"#, 101),
    (br#"{"do":"text","pad":"p","x":1.}"#, 101),
    (br#"{"do":"text","pad":"p","x":NaN}"#, 101),
    (br#"{"do":"text","pad":"p","x":tru}"#, 101),
    (b"{'do':'text','pad':'p'}", 101),
    (br#"{do:"text","pad":"p"}"#, 101),
    (br#"{"do":"text","pad":"p"} // x"#, 101),
    (b"\xEF\xBB\xBF{\"do\":\"text\",\"pad\":\"p\"}", 101),
    (b"{\"do\":\"text\",\"pad\":\"\xFF\"}", 101),
    (b"{\"do\":\"text\",\"pad\":\"p\",\"x\":\"\xC0\x80\"}", 101),
    (
        b"{\"do\":\"text\",\"pad\":\"p\",\"x\":\"\xED\xA0\x80\"}",
        101,
    ),
    (b"{\"do\":\"text\",\"pad\":\"p\",\"x\":\"\\ud800\"}", 101),
    (
        b"{\"do\":\"text\",\"pad\":\"p\",\"x\":\"\\udc00\\ud800\"}",
        101,
    ),
    (b"{\"do\":\"text\",\"pad\":\"p\",\"x\":\"\\x41\"}", 101),
    (b"{\"do\":\"text\",\"pad\":\"p\",\"x\":\"\x00\"}", 101),
    (b"{\"do\":\"text\",\"pad\":\"p\",\"x\":\"\x1F\"}", 101),
    (b"{\"do\":\"text\",\"pad\":\"p\"}\x00", 101),
    (br#"{"do":"create","pad":"p","pad":null}"#, 102),
];

#[test]
fn odd_lines_are_refused(rt: HostRuntime) {
    for (line, want) in REFUSED {
        let came = code_of(rt.alloc(), line);
        assert!(rt;
            came == Some(*want),
            "{}: wanted {want}, came {came:?}",
            line.escape_ascii()
        );
    }
}

/// Texts that are not JSON, or JSON that is not a request, with the number of their refusal.
const ODD: &[(&str, u16)] = &[
    (r#"{"do":"text","pad":"p"]"#, 101),
    (r#"{"do":"text" "pad":"p"}"#, 101),
    (r#"{"do" "text"}"#, 101),
    (r#"{"do":}"#, 101),
    ("{,}", 101),
    ("[1,]", 101),
    ("[,1]", 101),
    ("[1 2]", 101),
    (r#"{"a":1,,"b":2}"#, 101),
    (r#""open"#, 101),
    ("\"\\u12\"", 101),
    ("\"\\uZZZZ\"", 101),
    ("\"\\a\"", 101),
    ("\"a\tb\"", 101),
    ("-", 101),
    ("-01", 101),
    ("1e", 101),
    ("1e+", 101),
    ("0x10", 101),
    ("1_000", 101),
    ("Infinity", 101),
    ("True", 101),
    ("nul", 101),
    ("falsey", 101),
    (r#"{"do":"text","pad":"p"} x"#, 101),
    ("\\u007b}", 101),
    (",", 101),
    (":", 101),
    ("{", 101),
    ("[", 101),
    ("}", 101),
    ("//", 101),
    ("/* */ {}", 101),
    ("{\"do\":\"text\",\"pad\":\"p\"}\u{a0}", 101),
    ("\u{c}{\"do\":\"text\",\"pad\":\"p\"}", 101),
    ("\u{b}{\"do\":\"text\",\"pad\":\"p\"}", 101),
    ("true", 102),
    ("false", 102),
    ("0", 102),
    ("-0.0", 102),
    ("1e10", 102),
    ("[[]]", 102),
    (r#"[{"do":"text","pad":"p"}]"#, 102),
    (r#"{"do":null,"pad":"p"}"#, 102),
    (r#"{"do":["text"],"pad":"p"}"#, 102),
    (r#"{"Do":"text","pad":"p"}"#, 102),
    (r#"{"do":"Text","pad":"p"}"#, 102),
    (r#"{"do":"text ","pad":"p"}"#, 102),
    (r#"{"do":"","pad":"p"}"#, 102),
    (r#"{"":"text","pad":"p"}"#, 102),
    (r#"{"do":"text","PAD":"p"}"#, 102),
    (r#"{"do":"text","pad":null}"#, 102),
    (r#"{"do":"text","pad":["p"]}"#, 102),
    (r#"{"do":"text","pad":"p","rev":"1"}"#, 102),
    (r#"{"do":"text","pad":"p","rev":[1]}"#, 102),
    (r#"{"do":"text","pad":"p","rev":true}"#, 102),
    (
        r#"{"do":"entries","pad":"p","from":1,"count":1,"times":1}"#,
        102,
    ),
    (r#"{"do":"birth","pad":"p","at":0}"#, 102),
    (r#"{"do":"birth","pad":"p","rev":0}"#, 102),
    (r#"{"do":"text","pad":"p","rev":-0}"#, 102),
];

#[test]
fn odd_texts_are_refused(rt: HostRuntime) {
    for (line, want) in ODD {
        let came = code_of(rt.alloc(), line.as_bytes());
        assert!(rt;
            came == Some(*want),
            "{line:?}: wanted {want}, came {came:?}"
        );
    }
}
