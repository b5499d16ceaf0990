//! The bytes of the paths of an index in the making: each path once.

ghost use Rattle.std.specs.Prelude.{◌≡◌, ◌≢◌, All, IfErr, IfOk};
ghost use Rattle.gimli_index.specs.declared.error.MakeError.TheVariants.{PathsTooLarge};
ghost use Rattle.gimli_index.specs.inside.Paths.{ArePaths, IsKept, IsPathFault, IsPlaced};
ghost use Rattle.gimli_index.specs.inside.Paths.{IsSourceFault, made_path, no_paths};

use crate::contents::{MOST, Source};
use crate::error::MakeError;
use crate::path_set::PathSet;
use std::alloc::Global;
use std::marker::Model;

/// The bytes of all paths, one path after the other, each with a zero byte after it.
#[derive(Drop)]
pub(crate) struct PathBytes {
    bytes: Vec<u8>,
    /// The paths.
    paths: PathSet,
    /// Where each of them begins.
    firsts: Vec<u32>,
}

impl Model for PathBytes {
    ghost use Rattle.gimli_index.specs.inside.Paths.{PathList};

    ghost Value = { PathList };

    ghost view = { λ a. record {
      bytes = a.bytes.items;
      known = a.paths;
      firsts = a.firsts.items;
    } };
}

impl PathBytes {
    /// No paths.
    pub(crate) fn new(alloc: Global) -> PathBytes
        ensures { result ≡ no_paths }
    {
        PathBytes {
            bytes: Vec::new(alloc),
            paths: PathSet::new(alloc),
            firsts: Vec::new(alloc),
        }
    }

    /// The bytes.
    pub(crate) fn as_slice(&self) -> &[u8]
        ensures { result.now ≡ self.now.bytes }
    {
        self.bytes.as_slice()
    }

    /// Appends a path that isn't known, and returns where it begins. The limit is the most bytes of
    /// all paths, each with its zero byte.
    fn add(&mut self, alloc: Global, limit: usize, path: &[u8]) -> Result<u32, MakeError>
        requires are { ArePaths limit self.old }
        requires absent { All (λ p. p ≢ path.now) self.old.known }
        ensures placed { IfOk result (IsPlaced limit self.old self.new path.now) }
        ensures err { IfErr result (IsPathFault limit self.old path.now) }
        ensures kept { IfErr result (λ e. e ≡ PathsTooLarge → self.new ≡ self.old) }
    {
        let first = self.bytes.len();
        if limit.min(MOST) - first <= path.len() {
            return Err(MakeError::PathsTooLarge);
        }
        self.bytes.extend_from_slice(path)?;
        self.bytes.push(0)?;
        self.paths.add(alloc, path)?;
        self.firsts.push(first as u32)?;
        Ok(first as u32)
    }

    /// Where a path begins: it is appended where it isn't known.
    fn place(&mut self, alloc: Global, limit: usize, path: &[u8]) -> Result<u32, MakeError>
        requires are { ArePaths limit self.old }
        ensures placed { IfOk result (IsPlaced limit self.old self.new path.now) }
        ensures err { IfErr result (IsPathFault limit self.old path.now) }
    {
        match self.paths.find(path) {
            Some(index) => Ok(self.firsts[index]),
            None => self.add(alloc, limit, path),
        }
    }

    /// The source of a path in a unit: the path is placed, or the number of the reason kept why
    /// there is none.
    pub(crate) fn source(
        &mut self,
        alloc: Global,
        limit: usize,
        unit: u64,
        path: Result<Vec<u8>, u32>,
    ) -> Result<Source, MakeError>
        requires are { ArePaths limit self.old }
        requires reason { IfErr path (λ reason. reason ≢ 0) }
        ensures unit { IfOk result (λ source. source.unit ≡ unit) }
        ensures kept { IfOk result (IsKept limit self.old self.new (made_path path)) }
        ensures err { IfErr result (IsSourceFault limit self.old (made_path path)) }
    {
        match path {
            Ok(path) => {
                let first = self.place(alloc, limit, path.as_slice())?;
                Ok(Source {
                    unit,
                    first,
                    size: path.len() as u32,
                    reason: 0,
                })
            }
            Err(reason) => Ok(Source {
                unit,
                first: 0,
                size: 0,
                reason,
            }),
        }
    }
}
