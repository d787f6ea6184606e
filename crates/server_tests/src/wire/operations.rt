//! Operations that are read and written again.
use pad_model::{Op, Refusal};
use serde_json::Value;
use std::alloc::Global;
use std::process::Abort;
use std::test::Fail;
use wire_json::{op_value, read_op};

/// Operations in their forms.
const OPERATIONS: &[&str] = &[
    r#"{"author":"ann","kind":"delete","name":[1,2],"seen":[],"spans":[[2,1,2]]}"#,
    r#"{"after":[2,1],"author":"bob","first":[5,2],"kind":"insert","name":[2,1],"seen":[[1,1]],"text":"X"}"#,
    r#"{"after":null,"author":"bob","first":[1,2],"kind":"insert","name":[2,1],"seen":[],"text":"\"\\\u0000\n"}"#,
    r#"{"author":"ann","first":[2,1],"kind":"comment","last":[4,1],"name":[1,2],"seen":[],"text":"c"}"#,
    r#"{"author":"ann","comment":[65535,7],"kind":"resolve","name":[1,2],"seen":[[2,1],[3,200000]]}"#,
    r#"{"author":"solo","kind":"edit","name":[1,2],"parts":[{"kind":"delete","spans":[[2,1,3]]},{"after":[4,1],"first":[6,1],"kind":"insert","text":"ey"}],"seen":[]}"#,
];

/// Operations in their forms that break a limit.
const BEYOND_LIMITS: &[&str] = &[
    r#"{"author":"solo","kind":"edit","name":[1,2],"parts":[],"seen":[]}"#,
    r#"{"after":null,"author":"","first":[281474976710656,3],"kind":"insert","name":[2,200001],"seen":[[2,1]],"text":""}"#,
    r#"{"author":"ann","kind":"delete","name":[1,18446744073709551615],"seen":[],"spans":[[2,1,0]]}"#,
];

fn read(alloc: Global, text: &str) -> Result<Op, Refusal> {
    match Value::from_str(alloc, text) {
        Ok(value) => read_op(alloc, &value),
        Err(_) => Err(Refusal::NotJson),
    }
}

fn written(alloc: Global, op: &Op) -> Result<String, Refusal> {
    Ok(op_value(alloc, op)?.to_string(alloc)?)
}

/// Asserts that an operation is written as the text, and whether it is within its limits.
fn is_written(
    rt: &impl Abort,
    alloc: Global,
    op: &Op,
    text: &str,
    fits: bool,
) -> Result<(), Refusal> {
    let came = written(alloc, op)?;
    assert!(rt; came.as_str() == text, "wanted {text}, came {came}");
    let answer = op.check();
    assert!(rt;
        answer.is_ok() == fits,
        "{text}: wanted {fits}, came {answer:?}"
    );
    Ok(())
}

/// The same for the operation that is read from the text.
fn is_again(rt: &impl Abort, alloc: Global, text: &str, fits: bool) -> Result<(), Refusal> {
    is_written(rt, alloc, &read(alloc, text)?, text, fits)
}

#[test]
fn operations_are_read_as_written(rt: HostRuntime) -> Result<(), Fail> {
    for text in OPERATIONS {
        is_again(&rt, rt.alloc(), text, true)?;
    }
    for text in BEYOND_LIMITS {
        is_again(&rt, rt.alloc(), text, false)?;
    }
    Ok(())
}
