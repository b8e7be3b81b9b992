//! A pointer that owns a session or nothing.
ghost use Rattle.std.specs.Prelude.{◌≡◌, Option, Some, None, IsSome};
ghost use Rattle.kc_session.specs.Session.{Kept};
ghost use Rattle.kcore_c.specs.Handle.{held_coded, held_owns};

use super::parts::Parts;
use kc_session::Session;
use std::alloc::Global;
use std::marker::Model;
use std::ptr;

/// A pointer that owns the session behind it, or owns nothing. It is only dropped if it owns nothing.
#[repr(C)]
#[derive(Drop)]
pub struct Held {
    ptr: *mut u8,
    alloc: Global,
    pub ghost session: { Option Kept } by { held_coded },
}

impl Model for Held {
    ghost also_owns = { λ h. held_owns h.alloc h.ptr h.session };
}

// What it owns is a session or nothing, and memory that any thread may free.
unsafe impl Send for Held {}

impl Held {
    /// Makes a pointer without a session.
    pub fn none(alloc: Global) -> Held
        ensures { result.session ≡ None }
    {
        Held {
            ptr: ptr::null_mut(),
            alloc,
        }
    }

    /// Makes a handle of the parts of a box.
    pub fn of_parts(parts: Parts<Session, Global>) -> Held
        ensures { result.session ≡ Some parts.value }
    {
        let Parts { ptr, alloc } = parts;
        Held {
            ptr: ptr as *mut u8,
            alloc,
        }
    }

    /// Takes a handle apart, into the parts of its box.
    pub fn into_parts(self) -> Parts<Session, Global>
        requires { IsSome self.session }
        ensures { self.session ≡ Some result.value }
    {
        let Held { ptr, alloc } = self;
        Parts {
            ptr: ptr as *mut Session,
            alloc,
        }
    }
}
