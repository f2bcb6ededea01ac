//! The tree that calls work on.

ghost use Rattle.std.specs.Prelude.{◌≡◌, ◌<◌, ◌≤◌, length, drop, IfOk, OnOk, OnErr};
ghost use Rattle.inf_base.specs.declared.call.Call.TheVariants as call;
ghost use Rattle.inf_tree.specs.Apply.{apply};
ghost use Rattle.inf_tree.specs.Flat.{IsBuilt, IsOfOneName, tree_of};
ghost use Rattle.inf_tree.specs.Tree.{opening_tree};

use inf_base::{Answer, Call, Caller, Errno, FileMeta, Kind, Name, NoMemory, Text};
use std::alloc::Global;
use std::collections::BTreeMap;

/// The tree of files and directories, so far a root with files in it. Its calls take the time that the logarithm
/// of the number of files takes.
#[derive(Drop)]
pub struct Tree {
    files: BTreeMap<Name, FileMeta>,
}

impl Tree {
    /// The tree that a run begins with.
    pub fn new(alloc: Global) -> Result<Self, NoMemory>
        ensures { IfOk result (λ tree. tree_of tree ≡ opening_tree) }
    {
        Ok(Tree {
            files: BTreeMap::new(alloc),
        })
    }

    /// Makes a call, of those that are built.
    pub fn apply(&mut self, alloc: Global, caller: Caller, call: &Call) -> Result<Answer, NoMemory>
        requires { IsBuilt caller call.now }
        ensures answer { IfOk result
            (λ answer. answer ≡ (apply (tree_of self.old) caller call.now).answer) }
        ensures tree { OnOk result (tree_of self.new ≡ (apply (tree_of self.old) caller call.now).tree) }
        ensures err { OnErr result (tree_of self.new ≡ tree_of self.old) }
    {
        match call {
            Call::Create { path, mode } => self.create(alloc, caller, path, *mode),
            Call::Stat { path } => self.stat(alloc, caller, path),
            _ => unreachable!(),
        }
    }

    fn create(
        &mut self,
        alloc: Global,
        caller: Caller,
        path: &Text,
        mode: u16,
    ) -> Result<Answer, NoMemory>
        requires user { caller.uid ≡ 0 }
        requires path { IsOfOneName path.now }
        ensures answer { IfOk result
            (λ answer. answer ≡ (apply (tree_of self.old) caller (call.Create path.now mode)).answer) }
        ensures tree { OnOk result
            (tree_of self.new ≡ (apply (tree_of self.old) caller (call.Create path.now mode)).tree) }
        ensures err { OnErr result (tree_of self.new ≡ tree_of self.old) }
    {
        let name = name_of(alloc, path)?;
        if self.files.contains_key(&name) {
            return Ok(Answer::Refused(Errno::EEXIST));
        }
        let meta = FileMeta {
            mode,
            owner: caller.uid,
            group: caller.gid,
            length: 0,
        };
        self.files.insert(name, meta)?;
        Ok(Answer::Done)
    }

    fn stat(&self, alloc: Global, caller: Caller, path: &Text) -> Result<Answer, NoMemory>
        requires user { caller.uid ≡ 0 }
        requires path { IsOfOneName path.now }
        ensures { IfOk result
            (λ answer. answer ≡ (apply (tree_of self.now) caller (call.Stat path.now)).answer) }
    {
        let name = name_of(alloc, path)?;
        match self.files.get(&name) {
            None => Ok(Answer::Refused(Errno::ENOENT)),
            Some(meta) => Ok(Answer::Stat {
                kind: Kind::File,
                meta: *meta,
            }),
        }
    }
}

/// The name of a path that is a slash and one name.
fn name_of(alloc: Global, path: &Text) -> Result<Name, NoMemory>
    requires { IsOfOneName path.now }
    ensures { IfOk result (λ name. name ≡ drop 1 path.now) }
{
    Name::from_slice(alloc, &path.as_slice()[1..])
}
