// Handles of several owners, whose value is taken out where there is one owner alone.
ghost use Rattle.std.specs.Prelude.{◌≡◌, IfOk, MatchResult, Some};

use fut_scalar::NoMemory;
use std::alloc::Global;
use std::marker::Model;
use std::rc::{Rc, Weak};

/// A value with several owners, which contracts see as the value itself. The last owner may take it out and change it.
#[derive(Drop)]
pub struct Handle<T> {
    inner: Rc<T>,
}

impl<T> Model for Handle<T> {
    ghost Value = { T };

    ghost coded = { T.code };

    ghost view = { λ handle. handle.inner.value };
}

/// What is left of a handle that is given up. It owns no value, and contracts still see which one it was.
#[derive(Drop)]
pub struct Trace<T> {
    inner: Weak<T>,
}

impl<T> Model for Trace<T> {
    ghost use Rattle.std.specs.Prelude.{Option};
    ghost use Rattle.std.specs.Coded.{coded_option};
    ghost use Rattle.std.specs.Rc.{weak_target};

    ghost Value = { Option T };

    ghost coded = { coded_option T.code };

    ghost view = { λ trace. weak_target trace.inner };
}

impl<T> Handle<T> {
    pub fn get(&self) -> &T
        ensures { result.now ≡ self.now }
    {
        self.inner.as_ref()
    }

    /// What is left of the handle once it is given up. It fails only where the count of such rests is at its end.
    pub fn trace(&self) -> Result<Trace<T>, NoMemory>
        ensures { IfOk result (λ trace. trace ≡ Some self.now) }
    {
        match Rc::downgrade(&self.inner) {
            Ok(inner) => Ok(Trace { inner }),
            Err(_) => Err(NoMemory),
        }
    }
}

impl<T: Drop> Handle<T> {
    pub fn new(alloc: Global, value: T) -> Result<Handle<T>, NoMemory>
        ensures { IfOk result (λ handle. handle ≡ value) }
    {
        match Rc::new(alloc, value) {
            Ok(inner) => Ok(Handle { inner }),
            Err(_) => Err(NoMemory),
        }
    }

    /// One more owner of the same value. It fails only where the count of owners is at its end.
    pub fn share(&self) -> Result<Handle<T>, NoMemory>
        ensures { IfOk result (λ handle. handle ≡ self.now) }
    {
        match self.inner.clone() {
            Ok(inner) => Ok(Handle { inner }),
            Err(_) => Err(NoMemory),
        }
    }

    /// The value, where nobody else owns it, and else the handle.
    pub fn take(self) -> Result<T, Handle<T>>
        ensures { MatchResult result (λ value. value ≡ self) (λ handle. handle ≡ self) }
    {
        match Rc::try_unwrap(self.inner) {
            Ok(value) => Ok(value),
            Err(inner) => Err(Handle { inner }),
        }
    }
}
