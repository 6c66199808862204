//! Lists, of each item of which a value is told.
ghost use Rattle.std.specs.Prelude.{◌≡◌, map, IfOk};
ghost use Rattle.serde_json.specs.Data.{array};
ghost use Rattle.serde_json.specs.View.{view, items_of};

use serde_json::Value;
use std::alloc::{AllocError, Global};

/// What a value is told of.
pub(crate) trait Told {
    ghost use Rattle.serde_json.specs.Data.{Data};

    /// What the value says.
    ghost told: { Self → Data };

    /// The value. Its only error is want of memory.
    fn value(&self, alloc: Global) -> Result<Value, AllocError>
        ensures { IfOk result (λ value. view value ≡ told self.now) };
}

/// The values of all items. Its only error is want of memory.
pub(crate) fn list_value<T: Told>(alloc: Global, items: &[T]) -> Result<Value, AllocError>
    ensures { IfOk result (λ value. view value ≡ array (items_of (map T.told items.now))) }
{
    let mut list = Vec::new(alloc);
    for item in items {
        list.push(item.value(alloc)?)?;
    }
    Ok(Value::from(list))
}
