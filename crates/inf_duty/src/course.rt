//! What a call looks up, and what it does where its path leads.

ghost use Rattle.std.specs.Prelude.{◌≡◌, ℕ, List, [], Some, None, Ok, option_map, is_some, IfOk, MatchOption};
ghost use Rattle.inf_base.specs.declared.call.Call.TheVariants as call;
ghost use Rattle.inf_base.specs.Path.{path_of};
ghost use Rattle.inf_duty.specs.Course.{course, course_at, course_of, flow_at, text_of};
ghost use Rattle.inf_duty.specs.Kept.{IsAtLast, deed_at, names_if};

use crate::flow::Flow;
use inf_base::{Call, Chain, Name, Names, NoMemory, Text};
use inf_flow_dir::DirFlow;
use inf_flow_file::FileFlow;
use inf_message::Op;
use inf_path::{PathFault, has_names, parse_path};
use inf_resolve::{Looked, Walked};
use std::alloc::Global;

/// What is done where the path of a call has come to its end.
#[derive(Debug, Drop)]
pub enum Deed {
    Create(Name, u16),
    Stat(Name),
    Mkdir(Name, u16),
    Rmdir,
}

/// What a call looks up, and what it does then.
#[derive(Debug, Drop)]
pub struct Course {
    pub looked: Looked,
    pub deed: Deed,
}

impl Course {
    fn of_names(alloc: Global, names: Vec<Name>, deed: Deed) -> Self
        ensures { Some result ≡ course names.items deed }
    {
        Course {
            looked: Looked {
                old: Names::new(names),
                new: Names::new(Vec::new(alloc)),
            },
            deed,
        }
    }

    /// The course of a call, if it is of a kind and a path that is built.
    pub fn of(alloc: Global, call: &Call) -> Result<Option<Self>, NoMemory>
        ensures { IfOk result (λ made. made ≡ course_of call.now) }
    {
        let Some(path) = path_in(call) else {
            return Ok(None);
        };
        let Some(names) = names_of(alloc, path)? else {
            return Ok(None);
        };
        match call {
            Call::Rmdir { .. } => Ok(Course::of_all(alloc, names)),
            _ => Ok(Course::of_last(alloc, call, names)),
        }
    }

    /// The directory of the last name is removed.
    fn of_all(alloc: Global, names: Vec<Name>) -> Option<Self>
        ensures { (path : List ℕ) → result ≡ course_at (call.Rmdir path) (Ok names.items) }
    {
        if names.is_empty() {
            return None;
        }
        Some(Course::of_names(alloc, names, Deed::Rmdir))
    }

    /// Something is done at the last name, in the directory of the others.
    #[tactic(auto, using(crate::proofs::CourseFacts::coursed))]
    fn of_last(alloc: Global, call: &Call, names: Vec<Name>) -> Option<Self>
        requires { IsAtLast call.now }
        ensures { result ≡ course_at call.now (Ok names.items) }
    {
        let mut names = names;
        let last = names.pop()?;
        let deed = deed_at(call, last)?;
        Some(Course::of_names(alloc, names, deed))
    }
}

impl Deed {
    /// The flow of a call whose path has led so far.
    pub fn begin(self, walked: Walked) -> Flow
        ensures { result ≡ flow_at self walked.chain walked.left }
    {
        let Walked { chain, left } = walked;
        let mut names = left.into_vec().into_iter();
        match names.next() {
            None => self.arrive(chain),
            Some(name) => {
                let op = match self {
                    Deed::Rmdir if names.len() == 0 => Op::RmdirName(name),
                    _ => Op::Walk(name),
                };
                Flow::File(FileFlow::Finishes(chain, op))
            }
        }
    }

    /// The path has come to its end.
    fn arrive(self, chain: Chain) -> Flow
        ensures { result ≡ flow_at self chain [] }
    {
        match self {
            Deed::Create(name, mode) => {
                Flow::File(FileFlow::Finishes(chain, Op::Create(name, mode)))
            }
            Deed::Stat(name) => Flow::File(FileFlow::Finishes(chain, Op::Stat(name))),
            Deed::Mkdir(name, mode) => Flow::Dir(DirFlow::Reserves { chain, name, mode }),
            Deed::Rmdir => Flow::Dir(DirFlow::Seals(chain)),
        }
    }
}

/// The path of a call, of the kinds that go by these flows.
fn path_in(call: &Call) -> Option<&Text>
    ensures { MatchOption result (course_of call.now ≡ None) (λ path. path.now ≡ text_of call.now) }
{
    match call {
        Call::Create { path, .. } => Some(path),
        Call::Stat { path } => Some(path),
        Call::Mkdir { path, .. } => Some(path),
        Call::Rmdir { path } => Some(path),
        _ => None,
    }
}

/// The names of a path that has no fault.
fn names_of(alloc: Global, path: &Text) -> Result<Option<Vec<Name>>, NoMemory>
    ensures { IfOk result (λ names. option_map (λ v. v.items) names ≡ names_if (path_of path.now)) }
{
    match parse_path(alloc, path) {
        Ok(path) => Ok(Some(path.names.into_vec())),
        Err(PathFault::Refused(_)) => Ok(None),
        Err(PathFault::NoMemory) => Err(NoMemory),
    }
}

/// What is done at the last name of a path.
fn deed_at(call: &Call, name: Name) -> Option<Deed>
    ensures { result ≡ deed_at call.now name }
{
    match call {
        Call::Create { mode, .. } => Some(Deed::Create(name, *mode)),
        Call::Stat { .. } => Some(Deed::Stat(name)),
        Call::Mkdir { mode, .. } => Some(Deed::Mkdir(name, *mode)),
        _ => None,
    }
}

/// Whether the call is of a kind and a path that is built. Takes no memory.
pub fn has_course(call: &Call) -> bool
    ensures { result ≡ is_some (course_of call.now) }
{
    match path_in(call) {
        Some(path) => has_names(path.as_slice()),
        None => false,
    }
}
