//! What C keeps of a session.
ghost use Rattle.std.specs.Prelude.{◌≡◌, Some, None, IsSome, is_some, option_map};

mod held;
mod parts;

use held::Held;
use kc_session::Session;
use parts::Parts;
use std::alloc::Global;
use std::mem;

/// What C keeps of a session: the pointer to it, and whether it is open. All zero, it is closed.
#[repr(C)]
pub struct Handle {
    pub held: Held,
    is_open: bool,
    ghost agrees: { is_open ≡ is_some held.session },
}

impl Handle {
    fn open(session: Box<Session>) -> Handle
        ensures { result.held.session ≡ Some session.value }
    {
        Handle {
            held: Held::of_parts(Parts::of(session)),
            is_open: true,
        }
    }

    fn closed(alloc: Global) -> Handle
        ensures { result.held.session ≡ None }
    {
        Handle {
            held: Held::none(alloc),
            is_open: false,
        }
    }

    fn into_session(self) -> Option<Box<Session>>
        ensures { option_map (λ session. session.value) result ≡ self.held.session }
    {
        let Handle { held, is_open } = self;
        if is_open {
            Some(held.into_parts().into_box())
        } else {
            None
        }
    }

    /// Whether there is a session.
    pub fn is_open(&self) -> bool
        ensures { result ≡ is_some self.now.held.session }
    {
        self.is_open
    }

    /// Takes the session out, so that the handle is closed.
    pub fn take(&mut self, alloc: Global) -> Option<Box<Session>>
        ensures session { option_map (λ session. session.value) result ≡ self.old.held.session }
        ensures closed { self.new.held.session ≡ None }
    {
        mem::replace(self, Handle::closed(alloc)).into_session()
    }

    /// Puts a session in, if there is none.
    pub fn put(&mut self, session: Box<Session>)
        requires { self.old.held.session ≡ None }
        ensures { self.new.held.session ≡ Some session.value }
    {
        let _none = mem::replace(self, Handle::open(session)).into_session();
    }
}
