//! Worked examples of what an object holds that is put together of its members, as theorems: each sentence of the definition has one that
//! a slip in it breaks.
ghost use Rattle.std.specs.Prelude.{◌≡◌, true, false};
ghost use Rattle.serde_json.specs.Data.{Members};
ghost use Rattle.serde_json.specs.View.{members_view};
ghost use Rattle.page_http.specs.declared.members.Object.{Object};
ghost use Rattle.page_http.specs.Objects.{Holds};

/// An object holds these members, and no others, unless memory was refused for one: then nothing is said of what it holds.
pub fn what_an_object_holds_has_examples()
    ensures put { (object : Object) (members : Members) → object.is_refused ≡ false → Holds object members
        → members_view object.map.entries ≡ members }
    ensures its_own { (object : Object) → Holds object (members_view object.map.entries) }
    ensures refused { (object : Object) (members : Members) → object.is_refused ≡ true → Holds object members }
{}
