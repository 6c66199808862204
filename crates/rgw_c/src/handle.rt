//! An instance as C holds it.
ghost use Rattle.std.specs.Prelude.{◌≡◌, Option, Some, None, option_map};
ghost use Rattle.rgw_c.specs.declared.instance.Instance.{Instance};

use crate::instance::Instance;
use std::alloc::Global;
use std::marker::Model;
use std::mem::replace;
use std::ptr::null_mut;

/// One word that C keeps: null, or a pointer to an instance.
#[repr(C)]
pub struct Handle {
    at: *mut u8,
    pub ghost held: { Option Instance },
}

impl Model for Handle {
    ghost use Rattle.rgw_c.specs.Held.{held_at};

    ghost also_owns = { λ h. held_at h.at h.held };
}

// A closed one.
fn closed() -> Handle
    ensures { result.held ≡ None }
{
    Handle { at: null_mut() }
}

// An open one: from here on its word alone says where the instance is.
fn opened(instance: Box<Instance>) -> Handle
    ensures { result.held ≡ Some instance.value }
{
    let at = Box::into_raw(instance);
    Handle { at: at as *mut u8 }
}

// What one held that is used up.
fn inside(handle: Handle, alloc: Global) -> Option<Box<Instance>>
    ensures { option_map (λ b. b.value) result ≡ handle.held }
{
    let Handle { at } = handle;
    if at.is_null() {
        return None;
    }
    Some(unsafe { Box::from_raw(alloc, at as *mut Instance) })
}

/// Takes out what it holds; it is then closed.
pub fn take(handle: &mut Handle, alloc: Global) -> Option<Box<Instance>>
    ensures held { option_map (λ b. b.value) result ≡ handle.old.held }
    ensures closed { handle.new.held ≡ None }
{
    inside(replace(handle, closed()), alloc)
}

/// Puts an instance into it; what it held before is dropped.
pub fn put(handle: &mut Handle, alloc: Global, instance: Box<Instance>)
    ensures { handle.new.held ≡ Some instance.value }
{
    drop(inside(replace(handle, opened(instance)), alloc));
}
