//! A list of the crate's own over a `Vec`.

ghost use Rattle.std.specs.Prelude.{◌≡◌, [], ◌∷◌, ◌++◌, ◌<◌, OnOk, OnErr, length, slice_index_or, slice_set};

use std::alloc::{AllocError, Global};
use std::marker::Model;

/// A list that contracts see as a list.
#[derive(Drop)]
pub struct List<T> {
    vec: Vec<T>,
}

impl<T> Model for List<T> {
    ghost use Rattle.std.specs.Prelude.{List};

    ghost Value = { List T };

    ghost view = { λ s. s.vec.items };
}

impl<T> List<T> {
    pub fn new(alloc: Global) -> List<T>
        ensures { result ≡ [] }
    {
        List {
            vec: Vec::new(alloc),
        }
    }

    pub fn from_vec(vec: Vec<T>) -> List<T>
        ensures { result ≡ vec.items }
    {
        List { vec }
    }

    pub fn into_vec(self) -> Vec<T>
        ensures { result.items ≡ self }
    {
        let List { vec } = self;
        vec
    }

    pub fn as_slice(&self) -> &[T]
        ensures { result.now ≡ self.now }
    {
        self.vec.as_slice()
    }

    pub fn len(&self) -> usize
        ensures { result ≡ length self.now }
    {
        self.vec.len()
    }

    /// The element at an index.
    pub fn at(&self, index: u32) -> &T
        requires { index < length self.now }
        ensures { result.now ≡ slice_index_or self.now index result.now }
    {
        &self.vec[index as usize]
    }

    pub fn set(&mut self, index: u32, value: T)
    where
        T: Drop,
        requires { index < length self.old }
        ensures { self.new ≡ slice_set self.old index value }
    {
        self.vec[index as usize] = value;
    }

    /// The same for an index of any size.
    pub fn put(&mut self, index: usize, value: T)
    where
        T: Drop,
        requires { index < length self.old }
        ensures { self.new ≡ slice_set self.old index value }
    {
        self.vec[index] = value;
    }

    pub fn push(&mut self, value: T) -> Result<(), AllocError>
    where
        T: Drop,
        ensures ok { OnOk result (self.new ≡ self.old ++ value ∷ []) }
        ensures err { OnErr result (self.new ≡ self.old) }
    {
        self.vec.push(value)?;
        Ok(())
    }
}
