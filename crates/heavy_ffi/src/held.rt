//! A box as its pointer, or none.

ghost use Rattle.std.specs.Prelude.{◌≡◌, Option, None, Some, IsSome};
ghost use Rattle.hh_saved.specs.declared.saved.Saved.{Saved};
ghost use Rattle.heavy_ffi.specs.Held.{held_owns, place_owns, value_coded};

use hh_library::Accumulator;
use std::alloc::{Allocator, Global};
use std::marker::Model;
use std::ptr::null_mut;

#[derive(Drop)]
pub struct Held<T, A: Allocator> {
    at: *mut T,
    alloc: A,
    pub ghost value: { Option T },
}

impl<T, A: Allocator> Model for Held<T, A> {
    ghost also_owns = { λ h. held_owns (A.dealloc_token h.alloc) T.row h.at h.value };
}

impl<T: Drop, A: Allocator> Held<T, A> {
    pub fn none(alloc: A) -> Held<T, A>
        ensures { result.value ≡ None }
    {
        Held {
            at: null_mut(),
            alloc,
        }
    }

    pub fn of(value: Box<T, A>) -> Held<T, A>
        ensures { result.value ≡ Some value.value }
    {
        let (at, alloc) = Box::into_raw_with_allocator(value);
        Held { at, alloc }
    }

    pub fn into_box(self) -> Box<T, A>
        requires { IsSome self.value }
        ensures { self.value ≡ Some result.value }
    {
        let Held { at, alloc } = self;
        unsafe { Box::from_raw(alloc, at) }
    }
}

/// A box of a saved file's value as its place, or none.
#[derive(Drop)]
#[repr(C)]
pub struct Place {
    at: *mut (),
    alloc: Global,
    pub ghost value: { Option Saved } by { value_coded },
}

impl Model for Place {
    ghost also_owns = { λ p. place_owns p.alloc p.at p.value };
}

impl Place {
    pub fn of(held: Held<Accumulator, Global>) -> Place
        ensures { result.value ≡ held.value }
    {
        let Held { at, alloc } = held;
        Place {
            at: at as *mut (),
            alloc,
        }
    }

    pub fn into_held(self) -> Held<Accumulator, Global>
        ensures { result.value ≡ self.value }
    {
        let Place { at, alloc } = self;
        Held {
            at: at as *mut Accumulator,
            alloc,
        }
    }
}
