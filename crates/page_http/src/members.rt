//! Objects that are put together of their members.
ghost use Rattle.std.specs.Prelude.{◌≡◌, ℕ, List, codes, string_bytes, IfOk};
ghost use Rattle.serde_json.specs.Data.{Data, Members, boolean, no_members, object as object_data, string, put as with_member};
ghost use Rattle.serde_json.specs.View.{view};
ghost use Rattle.page_http.specs.Objects.{Holds};
ghost use Rattle.page_http.specs.Texts.{number_data, put_number as with_a_number, put_shown as with_shown, name_data};

use serde_json::{Map, Value, put};
use std::alloc::{AllocError, Global};

/// An object that is put together of its members. That memory was refused for one is kept, and told at the end, so that no member is
/// an error.
#[derive(Drop)]
pub(crate) struct Object {
    alloc: Global,
    map: Map<String, Value>,
    is_refused: bool,
}

// A number, where there is one.
fn number_value(number: Option<u64>) -> Value
    ensures { view result ≡ number_data number }
{
    match number {
        Some(number) => Value::from(number),
        None => Value::Null,
    }
}

impl Object {
    /// Nothing yet.
    pub(crate) fn new(alloc: Global) -> Object
        ensures { Holds result no_members }
    {
        Object {
            alloc,
            map: Map::new(alloc),
            is_refused: false,
        }
    }

    /// Puts a member.
    pub(crate) fn put(&mut self, name: &str, value: Value)
        ensures { (was : Members) → Holds self.old was → Holds self.new (with_member name.now (view value) was) }
    {
        if put(&mut self.map, self.alloc, name, value).is_err() {
            self.is_refused = true;
        }
    }

    /// Puts a member that was made, unless memory was refused for it.
    pub(crate) fn put_made(&mut self, name: &str, made: Result<Value, AllocError>)
        ensures { (was : Members) (what : Data) → Holds self.old was → IfOk made (λ value. view value ≡ what)
            → Holds self.new (with_member name.now what was) }
    {
        match made {
            Ok(value) => self.put(name, value),
            Err(_) => self.is_refused = true,
        }
    }

    /// Puts a member that is a text that was made, unless memory was refused for it.
    pub(crate) fn put_string(&mut self, name: &str, made: Result<String, AllocError>)
        ensures { (was : Members) (what : List ℕ) → Holds self.old was → IfOk made (λ text. string_bytes text ≡ what)
            → Holds self.new (with_member name.now (string what) was) }
    {
        match made {
            Ok(text) => self.put(name, Value::from(text)),
            Err(_) => self.is_refused = true,
        }
    }

    /// Puts a member that is a text.
    pub(crate) fn put_text(&mut self, name: &str, text: &str)
        ensures { (was : Members) → Holds self.old was → Holds self.new (with_member name.now (string text.now) was) }
    {
        let made = String::from_str(self.alloc, text);
        self.put_string(name, made);
    }

    /// Puts a member that is a name, which is text where it is ASCII.
    pub(crate) fn put_name(&mut self, key: &str, name: &[u8])
        ensures { (was : Members) → Holds self.old was → Holds self.new (with_member key.now (name_data name.now) was) }
    {
        let made = String::from_utf8_lossy(self.alloc, name);
        self.put_string(key, made);
    }

    /// Puts a member that is a number.
    pub(crate) fn put_number(&mut self, name: &str, number: u64)
        ensures { (was : Members) → Holds self.old was → Holds self.new (with_a_number name.now number was) }
    {
        self.put(name, Value::from(number));
    }

    /// Puts a member that is a number, where there is one.
    pub(crate) fn put_maybe(&mut self, name: &str, number: Option<u64>)
        ensures { (was : Members) → Holds self.old was → Holds self.new (with_member name.now (number_data number) was) }
    {
        self.put(name, number_value(number));
    }

    /// Puts a member that is true or false.
    pub(crate) fn put_truth(&mut self, name: &str, is_so: bool)
        ensures { (was : Members) → Holds self.old was → Holds self.new (with_member name.now (boolean is_so) was) }
    {
        self.put(name, Value::from(is_so));
    }

    /// Puts under which number the lines are shown, the gateway's clock, in ms, and a first number.
    pub(crate) fn put_shown(&mut self, version: u64, clock: u64, first: u64)
        ensures { (was : Members) → Holds self.old was
            → Holds self.new (with_a_number (codes "first") first (with_shown version clock was)) }
    {
        self.put_number("version", version);
        self.put_number("clock", clock);
        self.put_number("first", first);
    }

    /// All that was put. Its only error is want of memory, also for what was put.
    pub(crate) fn end(self) -> Result<Value, AllocError>
        ensures { (members : Members) → Holds self members → IfOk result (λ value. view value ≡ object_data members) }
    {
        let Object {
            alloc: _,
            map,
            is_refused,
        } = self;
        if is_refused {
            return Err(AllocError);
        }
        Ok(Value::from(map))
    }
}
