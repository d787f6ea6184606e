//! Lists whose items have the same form.
ghost use Rattle.std.specs.Prelude.{◌≡◌, Option, IfOk};
ghost use Rattle.serde_json.specs.Data.{Data};
ghost use Rattle.serde_json.specs.View.{view};
ghost use Rattle.wire_json.specs.Forms.{each_data};
ghost use Rattle.wire_json.specs.Reading.{IsRead, list_in};
ghost use Rattle.wire_json.specs.Reading as reading;

use crate::field::field;
use pad_model::{Items, Refusal};
use serde_json::Value;
use std::alloc::{AllocError, Global};

/// A type that is read from a JSON value.
pub trait FromJson: Drop {
    ghost form: { Data → Option Self };

    fn from_json(alloc: Global, value: &Value) -> Result<Self, Refusal>
    where
        Self: Sized,
        ensures { IsRead (form (view value.now)) result };
}

/// A type that is written as a JSON value.
pub trait ToJson {
    ghost says: { Self → Data };

    fn to_json(&self, alloc: Global) -> Result<Value, AllocError>
        ensures { IfOk result (λ v. view v ≡ says self.now) };
}

pub fn list<T: FromJson>(alloc: Global, value: &Value) -> Result<Items<T>, Refusal>
    ensures { IsRead (list_in T.form (view value.now)) result }
{
    let Some(items) = value.as_array() else {
        return Err(Refusal::NotRequest);
    };
    let mut list = Items::new(alloc);
    for item in items {
        list.push(T::from_json(alloc, item)?)?;
    }
    Ok(list)
}

pub fn list_field<T: FromJson>(alloc: Global, value: &Value, key: &str) -> Result<Items<T>, Refusal>
    ensures { IsRead (reading.field (list_in T.form) key.now (view value.now)) result }
{
    list(alloc, field(value, key)?)
}

pub fn list_value<T: ToJson>(alloc: Global, items: &[T]) -> Result<Value, AllocError>
    ensures { IfOk result (λ v. view v ≡ each_data T.says items.now) }
{
    let mut values = Vec::new(alloc);
    for item in items {
        values.push(item.to_json(alloc)?)?;
    }
    Ok(Value::Array(values))
}
