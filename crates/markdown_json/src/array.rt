//! Lists as JSON.
ghost use Rattle.std.specs.Prelude.{OnOk, OnErr};
ghost use Rattle.std.specs.List.{flat_map};
ghost use Rattle.markdown_out.specs.StringAppends.{Appends, AppendsPart};
ghost use Rattle.markdown_json.specs.Json.{array, after_comma};

use crate::pieces::push_raw;
use crate::value::{Value, push_field};
use std::alloc::AllocError;

/// Appends values, each after a comma.
fn push_others<T: Value>(s: &mut String, values: &[T]) -> Result<(), AllocError>
    ensures ok { OnOk result (Appends s.old s.new (flat_map (after_comma T.json) values.now)) }
    ensures err { OnErr result
        (AppendsPart s.old s.new (flat_map (after_comma T.json) values.now)) }
{
    for value in values {
        push_field(s, ",", value)?;
    }
    Ok(())
}

/// Appends values as an array.
pub(crate) fn push_array<T: Value>(s: &mut String, values: &[T]) -> Result<(), AllocError>
    ensures ok { OnOk result (Appends s.old s.new (array T.json values.now)) }
    ensures err { OnErr result (AppendsPart s.old s.new (array T.json values.now)) }
{
    let Some((first, others)) = values.split_first() else {
        return push_raw(s, "[]");
    };
    push_field(s, "[", first)?;
    push_others(s, others)?;
    push_raw(s, "]")
}

impl<T: Value> Value for Vec<T> {
    ghost use Rattle.markdown_json.specs.Json.{array};

    ghost json = { λ values. array T.json values.items };

    fn push(&self, s: &mut String) -> Result<(), AllocError> {
        push_array(s, self)
    }
}
